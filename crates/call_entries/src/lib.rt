// The calls from image and areas. All but format and the report of one area mount the image anew, into two local arrays, and go on with the
// mounted volume.
// The area list comes by value, as numbers; programs in Rattle call these, and the exports lend them what C lends.
#![tactic(auto)]

ghost use Rattle.std.specs.Prelude.{◌≡◌, length};
ghost use Rattle.calls.specs.Format.{format_number, image_formatted};
ghost use Rattle.calls.specs.Report.{report_of};
ghost use Rattle.calls.specs.AreaReport.{area_report_of};
ghost use Rattle.calls.specs.Lookup.{resolve, lookup_of, open_of};
ghost use Rattle.calls.specs.Read.{read_given, read_answer, buffer_after, handle_after};
ghost use Rattle.calls.specs.Tree.{attempt_tree, tree_answer, buffer_with};
ghost use Rattle.calls.specs.Create.{create_of, image_created};
ghost use Rattle.calls.specs.Append.{append_of, image_appended};
ghost use Rattle.calls.specs.Overwrite.{overwrite_of, image_overwritten};
ghost use Rattle.calls.specs.Unlink.{unlink_of, image_unlinked};
ghost use Rattle.calls.specs.Rename.{rename_of, image_renamed};
ghost use Rattle.calls.specs.Collect.{collect_of, image_collected};
ghost use Rattle.area_list.specs.Numbers.{area_list};
ghost use Rattle.calls.specs.Attempt.{number_of};
ghost use Rattle.calls.specs.Outcome.{outcome_of};
ghost use Rattle.calls.specs.Answers.{report_seen, area_report_seen, read_seen, tree_seen, created_seen};
ghost use Rattle.path_walk.specs.Resolved.{meaning};

use area_structs::Areas;
use call_append::append_mounted;
use call_area_report::report_area;
use call_collect::collect_mounted;
use call_create::create_mounted;
use call_format::format;
use call_overwrite::overwrite_mounted;
use call_read::{lookup_answer, open_answer, read_mounted};
use call_rename::rename_mounted;
use call_report::report_mounted;
use call_tree::tree_mounted;
use call_unlink::unlink_mounted;
use calls::{
    AreaReport, BytesRead, Handle, Lookup, MOST_INODES, MOST_RECORDS, Opened, Refusal, Report,
};
use mount::mount;
use mount_state::TABLES;
use path_find::find_path;

// Makes an empty volume of the areas. A refused format changes no byte.
pub fn format_of(image: &mut [u8], areas: Areas) -> Result<(), Refusal>
    ensures number { number_of (outcome_of result) ≡ format_number image.old (area_list areas.numbers) }
    ensures image { image.new ≡ image_formatted image.old (area_list areas.numbers) }
{
    format(image, &areas.numbers)
}

// The report of a volume.
pub fn report_of(image: &[u8], areas: Areas) -> Result<Report, Refusal>
    ensures { report_seen result ≡ report_of image.now (area_list areas.numbers) }
{
    let mut tables = [0u32; TABLES];
    let mut places = [0u16; MOST_RECORDS];
    let m = mount(image, &areas.numbers, &mut tables, &mut places)?;
    Ok(report_mounted(image, &tables, m))
}

// The report of one area of a list; nothing is mounted.
pub fn area_report_of(
    image: &[u8],
    areas: Areas,
    index: u32,
    stretch: u32,
) -> Result<AreaReport, Refusal>
    ensures { area_report_seen result ≡ area_report_of image.now (area_list areas.numbers) index stretch }
{
    let mut places = [0u16; MOST_RECORDS];
    report_area(image, &areas.numbers, index, stretch, &mut places)
}

// What a path leads to, after the mount.
fn find_of<'a>(image: &[u8], areas: Areas, base: &'a [u8], path: &'a [u8]) -> Result<u32, Refusal>
    ensures { meaning result ≡ resolve image.now (area_list areas.numbers) base.now path.now }
{
    let mut tables = [0u32; TABLES];
    let mut places = [0u16; MOST_RECORDS];
    let m = mount(image, &areas.numbers, &mut tables, &mut places)?;
    find_path(image, &tables, m, base, path)
}

// What a path leads to.
pub fn lookup_of<'a>(image: &[u8], areas: Areas, base: &'a [u8], path: &'a [u8]) -> Lookup
    ensures { result ≡ lookup_of image.now (area_list areas.numbers) base.now path.now }
{
    lookup_answer(find_of(image, areas, base, path))
}

// Opens the file of a path, at position 0.
pub fn open_of<'a>(image: &[u8], areas: Areas, base: &'a [u8], path: &'a [u8]) -> Opened
    ensures { result ≡ open_of image.now (area_list areas.numbers) base.now path.now }
{
    open_answer(find_of(image, areas, base, path))
}

// Reads the file of an id from a position on, into the front of the buffer; a refused read leaves the buffer as it is.
pub fn read_at_of(
    image: &[u8],
    areas: Areas,
    id: u32,
    position: u32,
    buffer: &mut [u8],
) -> Result<BytesRead, Refusal>
    ensures answer { read_seen result ≡ read_answer (read_given image.now (area_list areas.numbers) id position (length buffer.old)) }
    ensures bytes { buffer.new ≡ buffer_after (read_given image.now (area_list areas.numbers) id position (length buffer.old)) buffer.old }
{
    let mut tables = [0u32; TABLES];
    let mut places = [0u16; MOST_RECORDS];
    let m = mount(image, &areas.numbers, &mut tables, &mut places)?;
    read_mounted(image, &tables, m, id, position, buffer)
}

// Reads the file of a handle from its position on, and moves the position behind what was given; a refused read leaves handle and buffer as they are.
pub fn read_of(
    image: &[u8],
    areas: Areas,
    h: &mut Handle,
    buffer: &mut [u8],
) -> Result<BytesRead, Refusal>
    ensures answer { read_seen result ≡ read_answer (read_given image.now (area_list areas.numbers) h.old.id h.old.position (length buffer.old)) }
    ensures handle { h.new ≡ handle_after (read_given image.now (area_list areas.numbers) h.old.id h.old.position (length buffer.old)) h.old }
    ensures bytes { buffer.new ≡ buffer_after (read_given image.now (area_list areas.numbers) h.old.id h.old.position (length buffer.old)) buffer.old }
{
    let read = read_at_of(image, areas, h.id, h.position, buffer)?;
    h.position += read.given;
    Ok(read)
}

// The tree as text: answers the length of all of it, and puts as much as fits in the front of the buffer; a refused one leaves the buffer as it is.
pub fn tree_of(image: &[u8], areas: Areas, text: &mut [u8]) -> Result<u32, Refusal>
    ensures answer { tree_seen result ≡ tree_answer (attempt_tree image.now (area_list areas.numbers)) }
    ensures bytes { text.new ≡ buffer_with text.old (attempt_tree image.now (area_list areas.numbers)) }
{
    let mut tables = [0u32; TABLES];
    let mut places = [0u16; MOST_RECORDS];
    let m = mount(image, &areas.numbers, &mut tables, &mut places)?;
    let mut order = [0u32; MOST_INODES];
    tree_mounted(image, &tables, m, &mut order, text)
}

// Makes an empty directory (kind 0) or file (any other kind) at a path; answers its id. A refused create changes no byte.
pub fn create_of<'a>(
    image: &mut [u8],
    areas: Areas,
    base: &'a [u8],
    path: &'a [u8],
    kind: u32,
) -> Result<u32, Refusal>
    ensures answer { created_seen result ≡ create_of image.old (area_list areas.numbers) base.now path.now kind }
    ensures image { image.new ≡ image_created image.old (area_list areas.numbers) base.now path.now kind }
{
    let mut tables = [0u32; TABLES];
    let mut places = [0u16; MOST_RECORDS];
    let m = mount(image, &areas.numbers, &mut tables, &mut places)?;
    create_mounted(image, &tables, &places, m, base, path, kind)
}

// Appends bytes to a file, all or none. A refused append changes no byte.
pub fn append_of<'a>(
    image: &mut [u8],
    areas: Areas,
    base: &'a [u8],
    path: &'a [u8],
    text: &[u8],
) -> Result<(), Refusal>
    ensures number { number_of (outcome_of result) ≡ append_of image.old (area_list areas.numbers) base.now path.now text.now }
    ensures image { image.new ≡ image_appended image.old (area_list areas.numbers) base.now path.now text.now }
{
    let mut tables = [0u32; TABLES];
    let mut places = [0u16; MOST_RECORDS];
    let m = mount(image, &areas.numbers, &mut tables, &mut places)?;
    append_mounted(image, &tables, &places, m, base, path, text)
}

// Overwrites bytes of a file from an offset on, all or none. A refused overwrite changes no byte.
pub fn overwrite_of<'a>(
    image: &mut [u8],
    areas: Areas,
    base: &'a [u8],
    path: &'a [u8],
    offset: u32,
    text: &[u8],
) -> Result<(), Refusal>
    ensures number { number_of (outcome_of result) ≡ overwrite_of image.old (area_list areas.numbers) base.now path.now offset text.now }
    ensures image { image.new ≡ image_overwritten image.old (area_list areas.numbers) base.now path.now offset text.now }
{
    let mut tables = [0u32; TABLES];
    let mut places = [0u16; MOST_RECORDS];
    let m = mount(image, &areas.numbers, &mut tables, &mut places)?;
    overwrite_mounted(image, &tables, m, base, path, offset, text)
}

// Deletes what a path leads to, and with a directory all below it. A refused unlink changes no byte.
pub fn unlink_of<'a>(
    image: &mut [u8],
    areas: Areas,
    base: &'a [u8],
    path: &'a [u8],
) -> Result<(), Refusal>
    ensures number { number_of (outcome_of result) ≡ unlink_of image.old (area_list areas.numbers) base.now path.now }
    ensures image { image.new ≡ image_unlinked image.old (area_list areas.numbers) base.now path.now }
{
    let mut tables = [0u32; TABLES];
    let mut places = [0u16; MOST_RECORDS];
    let m = mount(image, &areas.numbers, &mut tables, &mut places)?;
    unlink_mounted(image, &tables, m, base, path)
}

// Renames what the old path leads to, and with a directory all below it. A refused rename changes no byte.
pub fn rename_of<'a>(
    image: &mut [u8],
    areas: Areas,
    base: &'a [u8],
    old: &'a [u8],
    new: &'a [u8],
) -> Result<(), Refusal>
    ensures number { number_of (outcome_of result) ≡ rename_of image.old (area_list areas.numbers) base.now old.now new.now }
    ensures image { image.new ≡ image_renamed image.old (area_list areas.numbers) base.now old.now new.now }
{
    let mut tables = [0u32; TABLES];
    let mut places = [0u16; MOST_RECORDS];
    let m = mount(image, &areas.numbers, &mut tables, &mut places)?;
    rename_mounted(image, &tables, m, base, old, new)
}

// Moves what counts of one file area to the scratch area, and makes that file area the scratch area.
pub fn collect_of(image: &mut [u8], areas: Areas) -> Result<(), Refusal>
    ensures number { number_of (outcome_of result) ≡ collect_of image.old (area_list areas.numbers) }
    ensures image { image.new ≡ image_collected image.old (area_list areas.numbers) }
{
    let mut tables = [0u32; TABLES];
    let mut places = [0u16; MOST_RECORDS];
    let m = mount(image, &areas.numbers, &mut tables, &mut places)?;
    collect_mounted(image, &tables, &places, m)
}
