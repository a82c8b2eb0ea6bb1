// The inodes of a table in order of their names, then ids. Document 02, T-07.
#![tactic(auto)]

ghost use Rattle.std.specs.Prelude.{◌≡◌, ◌+◌, ◌≤◌, ◌<◌, length, take};
ghost use Rattle.volume.specs.Lists.{insert, sort};
ghost use Rattle.volume_laws.specs.Sort.{Sorted};
ghost use Rattle.record_places.specs.Place.{by_place};
ghost use Rattle.inode_order.specs.Order.{place_before, InodeAt, Inodes, inserted};

use record_places::id_at;
use record_read::InodeHeader;

// The size of the name of the inode at `p`.
pub fn name_size(image: &[u8], p: u32) -> usize
    requires { InodeAt image.now p }
    ensures is { result ≡ length ((by_place image.now).name p) }
    ensures inside { p + 20 + result ≤ length image.now }
    ensures small { result < 256 }
{
    usize::from(image[p as usize + InodeHeader::LENGTH_AT])
}

// The name of the inode at `p`.
fn name_at(image: &[u8], p: u32) -> &[u8]
    requires { InodeAt image.now p }
    ensures { result.now ≡ (by_place image.now).name p }
{
    let start = p as usize + InodeHeader::SIZE;
    let end = start + name_size(image, p);
    &image[start..end]
}

// Whether the inode at `p` comes before the one at `q`. It is never inlined: `place_for` then branches by its answer, and goes on reading before it
// has it.
#[inline(never)]
fn comes_before(image: &[u8], p: u32, q: u32) -> bool
    requires inode_at { InodeAt image.now p }
    requires inode_at_2 { InodeAt image.now q }
    ensures { result ≡ place_before image.now p q }
{
    (name_at(image, p), id_at(image, p))
        .cmp(&(name_at(image, q), id_at(image, q)))
        .is_lt()
}

// Where the inode at `p` goes among those in order: before the first that it comes before, found by halves.
fn place_for(image: &[u8], order: &[u32], p: u32) -> usize
    requires inode_at { InodeAt image.now p }
    requires inodes { Inodes image.now order.now }
    requires sorted { Sorted (place_before image.now) order.now }
    ensures within { result ≤ length order.now }
    ensures is { insert (place_before image.now) p order.now ≡ inserted result p order.now }
{
    let mut low = 0;
    let mut high = order.len();
    while low < high {
        let middle = low + (high - low) / 2;
        if comes_before(image, p, order[middle]) {
            high = middle;
        } else {
            low = middle + 1;
        }
    }
    low
}

// Puts `p` at place `at` of the first `count` of a list; those that stand from there on move one place up.
fn insert_at(order: &mut [u32], count: usize, at: usize, p: u32)
    requires { (at ≤ count) × (count < length order.old) }
    ensures { take (count + 1) order.new ≡ inserted at p (take count order.old) }
{
    order.copy_within(at..count, at + 1);
    order[at] = p;
}

// Sorts the inodes at the spots into the front of `order`, the last first, so that each insertion is one of the definition's.
pub fn order_inodes(image: &[u8], spots: &[u32], order: &mut [u32])
    requires inodes { Inodes image.now spots.now }
    requires spots_in_bounds { length spots.now ≤ length order.old }
    ensures { take (length spots.now) order.new ≡ sort (place_before image.now) spots.now }
{
    let n = spots.len();
    for count in 0..n {
        let p = spots[n - 1 - count];
        let at = place_for(image, &order[..count], p);
        insert_at(order, count, at, p);
    }
}
