// The calls of the file system, for C and Rust to link. Each takes the areas as a lent slice of structs, which C sees as a pointer and a count,
// copies the list by `areas_of`, and goes on with the copy: one shared walk (the crate `nffs_walk`) proves them.
#![tactic(auto)]

ghost use Rattle.std.specs.Prelude.{◌≡◌, length};
ghost use Rattle.calls.specs.Format.{format_number, image_formatted};
ghost use Rattle.calls.specs.Report.{report_of};
ghost use Rattle.calls.specs.AreaReport.{area_report_of};
ghost use Rattle.calls.specs.Lookup.{lookup_of, open_of};
ghost use Rattle.calls.specs.Read.{read_given, read_answer, buffer_after, handle_after};
ghost use Rattle.calls.specs.Tree.{attempt_tree, tree_answer, buffer_with};
ghost use Rattle.calls.specs.Create.{create_of, image_created};
ghost use Rattle.calls.specs.Append.{append_of, image_appended};
ghost use Rattle.calls.specs.Overwrite.{overwrite_of, image_overwritten};
ghost use Rattle.calls.specs.Unlink.{unlink_of, image_unlinked};
ghost use Rattle.calls.specs.Rename.{rename_of, image_renamed};
ghost use Rattle.calls.specs.Collect.{collect_of, image_collected};
ghost use Rattle.calls.specs.Areas.{listed};

use area_structs::areas_of;
use call_entries::{
    append_of, area_report_of, collect_of, create_of, format_of, lookup_of, open_of, overwrite_of,
    read_at_of, read_of, rename_of, report_of, tree_of, unlink_of,
};
use calls::{
    AreaReport, Created, Descriptor, Handle, Lookup, Opened, ReadAnswer, Report, TreeAnswer, number,
};

// Makes an empty volume of the areas: the number of refusal, or 0. A refused format changes no byte.
#[unsafe(no_mangle)]
pub extern "C" fn nffs_format(image: &mut [u8], areas: &[Descriptor]) -> u32
    ensures number { result ≡ format_number image.old (listed areas.now) }
    ensures image { image.new ≡ image_formatted image.old (listed areas.now) }
{
    number(format_of(image, areas_of(areas)))
}

// The report of a volume.
#[unsafe(no_mangle)]
pub extern "C" fn nffs_report(image: &[u8], areas: &[Descriptor]) -> Report
    ensures { result ≡ report_of image.now (listed areas.now) }
{
    Report::from(report_of(image, areas_of(areas)))
}

// The report of the area `index` of the list, with its damage stretch `stretch`, both from 0. The volume need not mount.
#[unsafe(no_mangle)]
pub extern "C" fn nffs_area_report(
    image: &[u8],
    areas: &[Descriptor],
    index: u32,
    stretch: u32,
) -> AreaReport
    ensures { result ≡ area_report_of image.now (listed areas.now) index stretch }
{
    AreaReport::from(area_report_of(image, areas_of(areas), index, stretch))
}

// What a path leads to.
#[unsafe(no_mangle)]
pub extern "C" fn nffs_lookup<'a>(
    image: &[u8],
    areas: &[Descriptor],
    base: &'a [u8],
    path: &'a [u8],
) -> Lookup
    ensures { result ≡ lookup_of image.now (listed areas.now) base.now path.now }
{
    lookup_of(image, areas_of(areas), base, path)
}

// Opens the file of a path, at position 0.
#[unsafe(no_mangle)]
pub extern "C" fn nffs_open<'a>(
    image: &[u8],
    areas: &[Descriptor],
    base: &'a [u8],
    path: &'a [u8],
) -> Opened
    ensures { result ≡ open_of image.now (listed areas.now) base.now path.now }
{
    open_of(image, areas_of(areas), base, path)
}

// Reads the file of an id from a position on, into the front of the buffer; a refused read leaves the buffer as it is.
#[unsafe(no_mangle)]
pub extern "C" fn nffs_read_at(
    image: &[u8],
    areas: &[Descriptor],
    id: u32,
    position: u32,
    buffer: &mut [u8],
) -> ReadAnswer
    ensures answer { result ≡ read_answer (read_given image.now (listed areas.now) id position (length buffer.old)) }
    ensures bytes { buffer.new ≡ buffer_after (read_given image.now (listed areas.now) id position (length buffer.old)) buffer.old }
{
    ReadAnswer::from(read_at_of(image, areas_of(areas), id, position, buffer))
}

// Reads the file of a handle from its position on, and moves the position behind what was given; a refused read leaves handle and buffer as they are.
#[unsafe(no_mangle)]
pub extern "C" fn nffs_read(
    image: &[u8],
    areas: &[Descriptor],
    h: &mut Handle,
    buffer: &mut [u8],
) -> ReadAnswer
    ensures answer { result ≡ read_answer (read_given image.now (listed areas.now) h.old.id h.old.position (length buffer.old)) }
    ensures handle { h.new ≡ handle_after (read_given image.now (listed areas.now) h.old.id h.old.position (length buffer.old)) h.old }
    ensures bytes { buffer.new ≡ buffer_after (read_given image.now (listed areas.now) h.old.id h.old.position (length buffer.old)) buffer.old }
{
    ReadAnswer::from(read_of(image, areas_of(areas), h, buffer))
}

// The tree as text: the length of all of it, and as much as fits in the front of the buffer; a refused one leaves the buffer as it is.
#[unsafe(no_mangle)]
pub extern "C" fn nffs_tree(image: &[u8], areas: &[Descriptor], text: &mut [u8]) -> TreeAnswer
    ensures answer { result ≡ tree_answer (attempt_tree image.now (listed areas.now)) }
    ensures bytes { text.new ≡ buffer_with text.old (attempt_tree image.now (listed areas.now)) }
{
    TreeAnswer::from(tree_of(image, areas_of(areas), text))
}

// Makes an empty directory (kind 0) or file (any other kind) at a path. A refused create changes no byte.
#[unsafe(no_mangle)]
pub extern "C" fn nffs_create<'a>(
    image: &mut [u8],
    areas: &[Descriptor],
    base: &'a [u8],
    path: &'a [u8],
    kind: u32,
) -> Created
    ensures answer { result ≡ create_of image.old (listed areas.now) base.now path.now kind }
    ensures image { image.new ≡ image_created image.old (listed areas.now) base.now path.now kind }
{
    Created::from(create_of(image, areas_of(areas), base, path, kind))
}

// Appends bytes to a file, all or none: the number of refusal, or 0. A refused append changes no byte.
#[unsafe(no_mangle)]
pub extern "C" fn nffs_append<'a>(
    image: &mut [u8],
    areas: &[Descriptor],
    base: &'a [u8],
    path: &'a [u8],
    text: &[u8],
) -> u32
    ensures number { result ≡ append_of image.old (listed areas.now) base.now path.now text.now }
    ensures image { image.new ≡ image_appended image.old (listed areas.now) base.now path.now text.now }
{
    number(append_of(image, areas_of(areas), base, path, text))
}

// Overwrites bytes of a file from an offset on, all or none: the number of refusal, or 0. A refused overwrite changes no byte.
#[unsafe(no_mangle)]
pub extern "C" fn nffs_overwrite<'a>(
    image: &mut [u8],
    areas: &[Descriptor],
    base: &'a [u8],
    path: &'a [u8],
    offset: u32,
    text: &[u8],
) -> u32
    ensures number { result ≡ overwrite_of image.old (listed areas.now) base.now path.now offset text.now }
    ensures image { image.new ≡ image_overwritten image.old (listed areas.now) base.now path.now offset text.now }
{
    number(overwrite_of(image, areas_of(areas), base, path, offset, text))
}

// Deletes what a path leads to, and with a directory all below it: the number of refusal, or 0. A refused unlink changes no byte.
#[unsafe(no_mangle)]
pub extern "C" fn nffs_unlink<'a>(
    image: &mut [u8],
    areas: &[Descriptor],
    base: &'a [u8],
    path: &'a [u8],
) -> u32
    ensures number { result ≡ unlink_of image.old (listed areas.now) base.now path.now }
    ensures image { image.new ≡ image_unlinked image.old (listed areas.now) base.now path.now }
{
    number(unlink_of(image, areas_of(areas), base, path))
}

// Renames what the old path leads to, and with a directory all below it: the number of refusal, or 0. A refused rename changes no byte.
#[unsafe(no_mangle)]
pub extern "C" fn nffs_rename<'a>(
    image: &mut [u8],
    areas: &[Descriptor],
    base: &'a [u8],
    old: &'a [u8],
    new: &'a [u8],
) -> u32
    ensures number { result ≡ rename_of image.old (listed areas.now) base.now old.now new.now }
    ensures image { image.new ≡ image_renamed image.old (listed areas.now) base.now old.now new.now }
{
    number(rename_of(image, areas_of(areas), base, old, new))
}

// Moves what counts of one file area to the scratch area, and makes that file area the scratch area: the number of refusal, or 0.
#[unsafe(no_mangle)]
pub extern "C" fn nffs_collect(image: &mut [u8], areas: &[Descriptor]) -> u32
    ensures number { result ≡ collect_of image.old (listed areas.now) }
    ensures image { image.new ≡ image_collected image.old (listed areas.now) }
{
    number(collect_of(image, areas_of(areas)))
}
