// Check 1: an area list as numbers, offset and length in turn, and whether its areas are good.
// Behind check 1 a list of areas is two lists of one length, starts and spans; `described` is the list that they stand for.
#![tactic(auto)]

ghost use Rattle.std.specs.Prelude.{◌≡◌, ◌&&◌, ◌+◌, ◌*◌, ◌<◌, length, slice_index};
ghost use Rattle.volume.specs.Lists.{all};
ghost use Rattle.calls.specs.Areas.{area_end, good_area, disjoint, all_disjoint};
ghost use Rattle.area_list.specs.Numbers.{paired};
ghost use Rattle.area_list.specs.Described.{area_of};
ghost use Rattle.area_list.specs.Listing.{Counted};
ghost use Rattle.area_list.specs.Description.{GoodList};

use calls::{Descriptor, LARGEST_IMAGE, MOST_AREAS, SHORTEST_AREA};

// How many entries a list has: it ends at the first length 0 or at its end.
fn count_areas(areas: &[u32]) -> usize
    ensures { Counted areas.now result }
{
    for n in 0..areas.len() / 2 {
        if area_at(areas, n).length == 0 {
            return n;
        }
    }
    areas.len() / 2
}

// The area that pair `i` stands for.
pub fn area_at(areas: &[u32], i: usize) -> Descriptor
    requires { i * 2 + 1 < length areas.now }
    ensures { result ≡ area_of (slice_index areas.now (i * 2)) (slice_index areas.now (i * 2 + 1)) }
{
    Descriptor {
        offset: areas[i * 2],
        length: areas[i * 2 + 1],
    }
}

// Where an area ends; the sum can need more than 32 bits.
pub fn area_end(area: Descriptor) -> usize
    ensures { result ≡ area_end area }
{
    area.offset as usize + area.length as usize
}

// Whether an area has an allowed length and lies inside an image of `size` bytes.
#[tactic(auto, unfolding(calls::specs::Areas::good_area))]
fn good_area(size: usize, area: Descriptor) -> bool
    ensures { result ≡ good_area size area }
{
    let length = area.length as usize;
    SHORTEST_AREA <= length && length <= LARGEST_IMAGE && area_end(area) <= size
}

// Whether every area of some pairs is good.
fn all_good(size: usize, pairs: &[u32]) -> bool
    ensures { result ≡ all (good_area size) (paired pairs.now) }
{
    (0..pairs.len() / 2).all(|i| good_area(size, area_at(pairs, i)))
}

// Whether two areas have no byte in common.
#[tactic(auto, unfolding(calls::specs::Areas::disjoint))]
pub fn disjoint(area: Descriptor, other: Descriptor) -> bool
    ensures { result ≡ disjoint area other }
{
    area_end(area) <= other.offset as usize || area_end(other) <= area.offset as usize
}

// Whether an area has no byte in common with any of some pairs.
fn disjoint_from(area: Descriptor, pairs: &[u32]) -> bool
    ensures { result ≡ all (disjoint area) (paired pairs.now) }
{
    (0..pairs.len() / 2).all(|i| disjoint(area, area_at(pairs, i)))
}

// Whether no two areas of some pairs overlap.
fn all_disjoint(pairs: &[u32]) -> bool
    ensures { result ≡ all_disjoint (paired pairs.now) }
{
    (0..pairs.len() / 2).all(|i| disjoint_from(area_at(pairs, i), &pairs[(i + 1) * 2..]))
}

// Whether the areas of some pairs are good and no two of them overlap.
fn good_areas(size: usize, pairs: &[u32]) -> bool
    ensures { result ≡ (all (good_area size) (paired pairs.now) && all_disjoint (paired pairs.now)) }
{
    all_good(size, pairs) && all_disjoint(pairs)
}

// Check 1: the number of areas of a good list, which are its first pairs, or 0 for a bad one.
pub fn count_good_areas(image: &[u8], areas: &[u32]) -> usize
    ensures { GoodList image.now areas.now result }
{
    if image.len() > LARGEST_IMAGE {
        return 0;
    }
    let n = count_areas(areas);
    if n > MOST_AREAS {
        return 0;
    }
    if !good_areas(image.len(), &areas[..n * 2]) {
        return 0;
    }
    n
}
