// Format: every described area erased and headed, and the root in the first file area. The areas are numbers, offset and length in turn.
#![tactic(auto)]

ghost use Rattle.std.specs.Prelude.{◌≡◌, true, cond, ◌≤◌, ◌<◌, length};
ghost use Rattle.format.specs.AreaHeader.{scratch_id};
ghost use Rattle.area_list.specs.Numbers.{paired, area_list};
ghost use Rattle.calls.specs.Attempt.{number_of};
ghost use Rattle.calls.specs.Outcome.{outcome_of};
ghost use Rattle.calls.specs.Format.{longest_length, labelled, blanked, rooted, formatted, format_number, image_formatted};
ghost use Rattle.call_format.specs.Areas.{Lent, scratch_here, next_file, first_file};

use area_list::{area_at, count_good_areas};
use area_read::{HEADER_SIZE, SCRATCH_ID};
use area_write::write_area;
use calls::Refusal;
use record_read::{InodeHeader, NONE};
use record_write::write_inode;

// The length of the longest area.
fn longest(pairs: &[u32]) -> u32
    ensures { result ≡ longest_length (paired pairs.now) }
{
    let mut most = 0;
    for i in 0..pairs.len() / 2 {
        most = most.max(area_at(pairs, i).length);
    }
    most
}

// Whether an area is the scratch area: the first of the longest.
fn is_scratch(placed: bool, span: u32, most: u32) -> bool
    ensures { result ≡ scratch_here placed span most }
{
    !placed && span == most
}

// The id of the area at the place `i`: that of scratch, or the next of the file areas, which is the place, and one less behind scratch.
fn next_id(scratch: bool, placed: bool, i: usize) -> u8
    requires i_bound { i < 256 }
    requires i_nonzero { placed ≡ true → 0 < i }
    ensures { result ≡ cond scratch scratch_id (next_file placed i) }
{
    if scratch {
        SCRATCH_ID
    } else if placed {
        (i - 1) as u8
    } else {
        i as u8
    }
}

// Writes all areas: the first of the longest is scratch, the others have ids in order.
fn write_areas(image: &mut [u8], pairs: &[u32], most: u32)
    requires { Lent image.old pairs.now }
    ensures { image.new ≡ blanked image.old (labelled most 0 (paired pairs.now)) }
{
    let mut placed = false;
    for i in 0..pairs.len() / 2 {
        let area = area_at(pairs, i);
        let scratch = is_scratch(placed, area.length, most);
        let id = next_id(scratch, placed, i);
        write_area(image, area.offset, area.length, 0, id);
        if scratch {
            placed = true;
        }
    }
}

// The place in the list of the first file area, by the length of the first area.
fn first_file(span: u32, most: u32) -> usize
    ensures { result ≡ first_file span most }
{
    usize::from(span == most)
}

// Writes the root into the first file area.
fn write_root(image: &mut [u8], pairs: &[u32], most: u32)
    requires lent { Lent image.old pairs.now }
    requires in_bounds { 4 ≤ length pairs.now }
    ensures { image.new ≡ rooted image.old (labelled most 0 (paired pairs.now)) }
{
    let root = InodeHeader {
        id: 0,
        sequence: 0,
        parent: NONE,
        length: 0,
    };
    let first = first_file(area_at(pairs, 0).length, most);
    let at = area_at(pairs, first).offset as usize + HEADER_SIZE;
    write_inode(image, at, root, b"");
}

// Formats two or more good areas.
fn format_areas(image: &mut [u8], pairs: &[u32])
    requires lent { Lent image.old pairs.now }
    requires in_bounds { 4 ≤ length pairs.now }
    ensures { image.new ≡ formatted image.old (paired pairs.now) }
{
    let most = longest(pairs);
    write_areas(image, pairs, most);
    write_root(image, pairs, most);
}

// Formats the image under a list of areas.
pub fn format(image: &mut [u8], areas: &[u32]) -> Result<(), Refusal>
    ensures number { number_of (outcome_of result) ≡ format_number image.old (area_list areas.now) }
    ensures image { image.new ≡ image_formatted image.old (area_list areas.now) }
{
    let n = count_good_areas(image, areas);
    if n == 0 {
        return Err(Refusal::BadAreas);
    }
    if n == 1 {
        return Err(Refusal::NoFileOrScratch);
    }
    format_areas(image, &areas[..n * 2]);
    Ok(())
}
