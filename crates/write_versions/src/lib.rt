// New versions of the blocks of a file that hold a byte of a range: whether each may have one, where they go, and their stores.
// The places are all found before the first store, so that all are written or none.
#![tactic(auto)]

ghost use Rattle.std.specs.Prelude.{◌≡◌, ◌≢◌, true, ◌&&◌, List, map, suc, max, min, ◌+◌, ◌-◌, ◌*◌, ◌≤◌, length, take, eqb};
ghost use Rattle.format.specs.Bytes.{Bytes};
ghost use Rattle.format.specs.Record.{block, record_sequence};
ghost use Rattle.calls.specs.Areas.{file_areas};
ghost use Rattle.calls.specs.Mount.{most_blocks};
ghost use Rattle.calls.specs.Image.{put, part};
ghost use Rattle.calls.specs.Storing.{spaces, store_all, is_among};
ghost use Rattle.calls.specs.Rewrite.{last_sequence};
ghost use Rattle.calls.specs.Overwrite.{holds_byte, changes_from, new_version};
ghost use Rattle.calls.specs.declared.Descriptor.{Descriptor};
ghost use Rattle.record_places.specs.Place.{bytes_at, by_place, Lies};
ghost use Rattle.mount_state.specs.State.{Safe, Holds};
ghost use Rattle.write_room.specs.Spaces.{spaces_of};
ghost use Rattle.write_room.specs.Plan.{places_for, planned_of, PlannedAt, pair_stores};
ghost use Rattle.file_list.specs.Listing.{Listed};
ghost use Rattle.write_versions.specs.Held.{sizes_held, Sizes};
ghost use Rattle.write_versions.specs.Version.{Versioned};
ghost use Rattle.write_versions.specs.Stores.{versions_of, Storable, Fresh};

use byte_fields::load32;
use calls::MOST_AREAS;
use mount_state::Mounted;
use record_places::sequence_at;
use record_read::{BlockHeader, GREATEST_SEQUENCE, ID_AT, LINK_AT, SEQUENCE_AT};
use record_write::write_changed;
use write_room::{find_spaces, take_place};

// The bytes of a file from `from` up to `to`.
#[derive(Clone, Copy)]
pub struct Range {
    pub from: usize,
    pub to: usize,
}

// Where the range begins in a block that begins at `s`.
fn begin_in(range: Range, s: usize) -> usize
    ensures { result ≡ max s range.from }
{
    s.max(range.from)
}

// Where it ends in a block of `n` bytes that begins at `s`.
fn end_in(range: Range, s: usize, n: usize) -> usize
    requires { s + n ≤ most_blocks * 65535 }
    ensures { result ≡ min (s + n) range.to }
{
    (s + n).min(range.to)
}

// Whether that block holds a byte of the range.
#[tactic(auto, unfolding(calls::specs::Overwrite::holds_byte))]
fn holds(range: Range, s: usize, n: usize) -> bool
    requires { s + n ≤ most_blocks * 65535 }
    ensures { result ≡ holds_byte range.from range.to s n }
{
    begin_in(range, s) < end_in(range, s, n)
}

// Whether the block at `p`, of `n` bytes from `s` on, holds a byte of the range and has the greatest sequence.
fn is_greatest(image: &[u8], p: u32, range: Range, s: usize, n: usize) -> bool
    requires lies { Lies image.now p }
    requires n_bound { s + n ≤ most_blocks * 65535 }
    ensures { result ≡ (holds_byte range.from range.to s n && eqb last_sequence (record_sequence (bytes_at image.now p))) }
{
    holds(range, s, n) && sequence_at(image, p) == GREATEST_SEQUENCE
}

// Whether a block that holds a byte of the range has the greatest sequence.
pub fn any_greatest(image: &[u8], blocks: &[u32], sizes: &[u32], range: Range) -> bool
    requires listed { Listed image.now blocks.now sizes.now }
    requires sizes { Sizes sizes.now }
    ensures { (after : Bytes) → result ≡ is_among last_sequence (map (λ c. record_sequence c.block) (changes_from range.from range.to after 0 (map (bytes_at image.now) blocks.now))) }
{
    let mut s = 0;
    for (i, p) in blocks.iter().enumerate() {
        let n = sizes[i] as usize;
        if is_greatest(image, *p, range, s, n) {
            return true;
        }
        s += n;
    }
    false
}

// Takes a place for each block that holds a byte of the range; answers whether there is room for all.
fn take_places(
    froms: &mut [u32],
    ends: &[u32],
    sizes: &[u32],
    range: Range,
    places: &mut [u32],
) -> bool
    requires froms_len { (length froms.old ≡ length ends.now) × (length places.old ≡ length sizes.now) }
    requires sizes { Sizes sizes.now }
    ensures { places_for (spaces_of froms.old ends.now) (sizes_held range.from range.to 0 sizes.now) ≡ planned_of result (take (length (sizes_held range.from range.to 0 sizes.now)) places.new) }
{
    let mut s = 0;
    let mut k = 0;
    for size in sizes {
        let n = *size as usize;
        if holds(range, s, n) {
            let Some(at) = take_place(froms, ends, BlockHeader::SIZE + n) else {
                return false;
            };
            places[k] = at;
            k += 1;
        }
        s += n;
    }
    true
}

// Finds a place in the file areas for each block that holds a byte of the range; answers whether there is room for all.
pub fn plan_versions(
    image: &[u8],
    tables: &[u32],
    m: Mounted,
    sizes: &[u32],
    range: Range,
    places: &mut [u32],
) -> bool
    requires safe { Safe image.now m tables.now }
    requires places_len { length places.old ≡ length sizes.now }
    requires sizes { Sizes sizes.now }
    ensures are { (ds : List Descriptor) → Holds image.now ds m tables.now → places_for (spaces image.now (file_areas image.now ds)) (sizes_held range.from range.to 0 sizes.now) ≡ planned_of result (take (length (sizes_held range.from range.to 0 sizes.now)) places.new) }
    ensures inside { PlannedAt (length image.now) (sizes_held range.from range.to 0 sizes.now) (planned_of result (take (length (sizes_held range.from range.to 0 sizes.now)) places.new)) }
{
    let mut froms = [0u32; MOST_AREAS];
    let mut ends = [0u32; MOST_AREAS];
    let n = find_spaces(tables, m.files, &mut froms, &mut ends);
    take_places(&mut froms[..n], &ends[..n], sizes, range, places)
}

// The sequence that follows another; 0 follows the greatest, though no version does.
fn next_sequence(sequence: u32) -> u32
    ensures { sequence ≢ last_sequence → result ≡ suc sequence }
{
    sequence.wrapping_add(1)
}

// Stores at `at` the next version of the block at `p`, which holds `n` bytes, with `text` in the place of those from `begin` on.
fn store_version(image: &mut [u8], p: u32, n: u32, at: u32, begin: usize, text: &[u8])
    requires { (p + (block.header_size + n) ≤ length image.old) × (at + (block.header_size + n) ≤ length image.old) × (begin + length text.now ≤ n) }
    ensures { Versioned image.old p n at → image.new ≡ put image.old at (new_version (record { block = bytes_at image.old p; text = put ((by_place image.old).text p) begin text.now })) }
{
    let old = p as usize;
    let header = BlockHeader {
        id: load32(image, old + ID_AT),
        sequence: next_sequence(load32(image, old + SEQUENCE_AT)),
        owner: load32(image, old + LINK_AT),
        previous: load32(image, old + BlockHeader::PREVIOUS_AT),
        length: n,
    };
    write_changed(
        image,
        at as usize,
        header,
        old + BlockHeader::SIZE,
        begin,
        text,
    );
}

// Stores at `at` the next version of the block at `p`, of `n` bytes from `s` on in its file, with what it holds of the range taken from the text.
fn store_part(image: &mut [u8], p: u32, n: u32, at: u32, s: usize, range: Range, text: &[u8])
    requires n_in_bounds { (p + (block.header_size + n) ≤ length image.old) × (at + (block.header_size + n) ≤ length image.old) × (s + n ≤ most_blocks * 65535) }
    requires to_value { (range.to ≡ range.from + length text.now) × (holds_byte range.from range.to s n ≡ true) }
    ensures { Versioned image.old p n at → image.new ≡ put image.old at (new_version (record { block = bytes_at image.old p; text = put ((by_place image.old).text p) (max s range.from - s) (part text.now (max s range.from - range.from) (min (s + n) range.to - max s range.from)) })) }
{
    let begin = begin_in(range, s);
    let first = begin - range.from;
    let last = end_in(range, s, n as usize) - range.from;
    store_version(image, p, n, at, begin - s, &text[first..last]);
}

// Stores the new versions of the blocks that hold a byte of the range, in file order, each at its place.
pub fn store_versions(
    image: &mut [u8],
    blocks: &[u32],
    sizes: &[u32],
    places: &[u32],
    range: Range,
    text: &[u8],
)
    requires { Storable image.old blocks.now sizes.now places.now range.from range.to text.now }
    ensures { Fresh image.old blocks.now sizes.now places.now range.from range.to → image.new ≡ store_all image.old (pair_stores places.now (versions_of image.old blocks.now range.from text.now)) }
{
    let mut s = 0;
    let mut k = 0;
    for (i, p) in blocks.iter().enumerate() {
        let n = sizes[i];
        if holds(range, s, n as usize) {
            store_part(image, *p, n, places[k], s, range, text);
            k += 1;
        }
        s += n as usize;
    }
}
