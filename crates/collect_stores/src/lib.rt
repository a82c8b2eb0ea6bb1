// The stores of a collection, each from its lowest byte on: scratch erased and its header restored if needed, its id, the copies, the source
// erased, its new header.
#![tactic(auto)]

ghost use Rattle.std.specs.Prelude.{◌∷◌, ◌++◌, map, ◌≡◌, ◌+◌, ◌≤◌, length, take};
ghost use Rattle.format.specs.AreaHeader.{area_header_size};
ghost use Rattle.calls.specs.Areas.{area_bytes};
ghost use Rattle.calls.specs.Image.{put};
ghost use Rattle.calls.specs.Storing.{store_all};
ghost use Rattle.calls.specs.Collect.{is_blank, reset_stores, ready_stores, id_store, record_stores, next_count};
ghost use Rattle.area_list.specs.Described.{area_of};
ghost use Rattle.record_places.specs.Place.{bytes_at, AllLie};
ghost use Rattle.collect_stores.specs.Records.{moved};
ghost use Rattle.collect_stores.specs.Moving.{Movable};
ghost use Rattle.collect_stores.specs.Filled.{Fillable};
ghost use Rattle.collect_stores.specs.Fits.{fits};
ghost use Rattle.collect_stores.specs.Moved.{moved_into, Removable};

use area_list::disjoint;
use area_read::{HEADER_SIZE, ID_AT, SCRATCH_ID, area_count, area_id};
use area_write::write_area;
use byte_store::{ERASED, copy, erase, put};
use calls::Descriptor;
use record_places::size_at;

// The collection count of an area that is collected once more; 0 follows the last.
#[tactic(auto, unfolding(calls::specs::Collect::next_count))]
fn next_count(count: u8) -> u8
    ensures { result ≡ next_count count }
{
    if count == u8::MAX { 0 } else { count + 1 }
}

// Whether the records at some places can be stored behind an area's header, one behind the other: the area has room for them, and none of
// them has a byte in it.
pub fn fits(image: &[u8], area: Descriptor, places: &[u16]) -> bool
    requires all_lie { AllLie image.now places.now (length places.now) }
    requires area_header_size_le_length { area_header_size ≤ area.length }
    ensures { result ≡ fits image.now area places.now }
{
    let span = area.length as usize;
    let mut at = HEADER_SIZE;
    for place in places {
        let p = u32::from(*place);
        let size = size_at(image, p);
        let end = at + size;
        if end > span {
            return false;
        }
        let record = Descriptor {
            offset: p,
            length: size as u32,
        };
        if !disjoint(record, area) {
            return false;
        }
        at = end;
    }
    true
}

// Copies the records at some places to `to`, one behind the other.
fn copy_records(image: &mut [u8], places: &[u16], to: usize)
    requires { Movable image.old places.now to }
    ensures { image.new ≡ put image.old to (moved image.old places.now) }
{
    let mut at = to;
    for place in places {
        let p = u32::from(*place);
        let size = size_at(image, p);
        copy(image, p as usize, at, size);
        at += size;
    }
}

// Whether an area is erased behind its header.
fn is_blank(area: &[u8]) -> bool
    ensures { result ≡ is_blank area.now }
{
    area.iter().skip(HEADER_SIZE).all(|b| *b == ERASED)
}

// Erases an area whole and restores its header.
fn erase_area(image: &mut [u8], offset: u32, span: u32)
    requires { (offset + span ≤ length image.old) × (area_header_size ≤ span) }
    ensures { image.new ≡ store_all image.old (reset_stores (area_of offset span) (take area_header_size (area_bytes image.old (area_of offset span)))) }
{
    let start = offset as usize;
    let mut header = [0; HEADER_SIZE];
    header.copy_from_slice(&image[start..start + HEADER_SIZE]);
    erase(image, start, span as usize);
    put(image, start, &header);
}

// Erases the scratch area and restores its header, if it is not erased behind its header already.
fn ready_scratch(image: &mut [u8], offset: u32, span: u32)
    requires { (offset + span ≤ length image.old) × (area_header_size ≤ span) }
    ensures { image.new ≡ store_all image.old (ready_stores image.old (area_of offset span)) }
{
    let start = offset as usize;
    let end = start + span as usize;
    if !is_blank(&image[start..end]) {
        erase_area(image, offset, span);
    }
}

// Makes a file area of the scratch area: with the id of the source and the records at some places of the source.
fn fill_scratch(image: &mut [u8], offset: u32, span: u32, id: u8, places: &[u16])
    requires { Fillable image.old offset span places.now }
    ensures { image.new ≡ store_all image.old (ready_stores image.old (area_of offset span) ++ (id_store (area_of offset span) id ∷ record_stores (offset + area_header_size) (map (bytes_at image.old) places.now))) }
{
    let start = offset as usize;
    ready_scratch(image, offset, span);
    put(image, start + ID_AT, &[id]);
    copy_records(image, places, start + HEADER_SIZE);
}

// Moves the records at some places from a source area to scratch: scratch becomes a file area of the source's id, and the source scratch.
pub fn move_records(image: &mut [u8], offset: u32, span: u32, scratch: Descriptor, places: &[u16])
    requires { Removable image.old scratch (area_of offset span) places.now }
    ensures { image.new ≡ moved_into image.old scratch (area_of offset span) places.now }
{
    let id = area_id(image, offset);
    let count = next_count(area_count(image, offset));
    fill_scratch(image, scratch.offset, scratch.length, id, places);
    write_area(image, offset, span, count, SCRATCH_ID);
}
