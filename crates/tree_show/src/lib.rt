// The tree of a volume as text, line by line: its inodes are given by their places, in order. Document 02, T-07.
#![tactic(auto)]

ghost use Rattle.std.specs.Prelude.{◌≡◌, cond, [], ◌∷◌, ℕ, ◌+◌, ◌≤◌, length};
ghost use Rattle.std.proofs.Math.Option.{some};
ghost use Rattle.format.specs.Ids.{root_id};
ghost use Rattle.volume.specs.Counting.{Volume, inode_of};
ghost use Rattle.volume.specs.Contents.{file_blocks};
ghost use Rattle.volume.specs.Listing.{most_depth, deeper, deeper_for, size_word, words_of, line_of, show_directory, tree_text};
ghost use Rattle.volume_laws.specs.Listing.{ids_shown};
ghost use Rattle.calls.specs.Mount.{most_inodes, most_blocks};
ghost use Rattle.record_places.specs.Place.{by_place};
ghost use Rattle.table_rows.specs.Rows.{BlockTable};
ghost use Rattle.file_blocks.specs.Blocks.{BlocksOf};
ghost use Rattle.inode_order.specs.Order.{InodeAt, Inodes};
ghost use Rattle.text_write.specs.Clip.{Wrote, longest_text};
ghost use Rattle.tree_show.specs.Show.{entries_at, Showable, Lists};
ghost use Rattle.tree_show.specs.Going.{text_of, reach, deeper_room, DirectoryShown, EntryShown};

use file_blocks::file_size;
use inode_order::name_size;
use record_places::{id_at, link_at};
use record_read::{InodeHeader, ROOT, is_directory_id};
use table_rows::TakenRows;
use text_write::{indent, print, print_number, push};

// The greatest depth that is shown.
pub const MOST_DEPTH: usize = 64;

const SPACE: u8 = 0x20;

const NEWLINE: u8 = 0x0a;

const SLASH: u8 = 0x2f;

// Where the next byte goes, and how many entries may still be shown. No volume has more entries than inodes: the count makes the walk short over
// any tables.
#[derive(Clone, Copy)]
pub struct Cursor {
    pub at: usize,
    pub left: usize,
}

// Writes a file's size, or that it is broken.
fn show_size(rows: &TakenRows<'_>, text: &mut [u8], at: usize, file: u32) -> usize
    requires block_table { BlockTable rows.now.image.now rows.now.ids.now rows.now.spots.now }
    requires ids_len_bound { length rows.now.ids.now ≤ most_blocks }
    requires at_bound { at + 11 ≤ longest_text }
    ensures within { result ≤ at + 11 }
    ensures told { (v : Volume ℕ) → BlocksOf rows.now.image.now rows.now.ids.now rows.now.spots.now v → Wrote text.old at (32 ∷ size_word (by_place rows.now.image.now) (file_blocks (by_place rows.now.image.now) v file)) text.new result }
{
    let next = push(text, at, SPACE);
    let Some(size) = file_size(rows, file) else {
        return print(text, next, b"broken");
    };
    print_number(text, next, size as u32)
}

// Writes the name of the inode at `p`, and a file's size; the root is a slash.
fn show_words(rows: &TakenRows<'_>, text: &mut [u8], at: usize, p: u32) -> usize
    requires block_table { BlockTable rows.now.image.now rows.now.ids.now rows.now.spots.now }
    requires ids_len_bound { length rows.now.ids.now ≤ most_blocks }
    requires inode_at { InodeAt rows.now.image.now p }
    requires at_bound { at + 266 ≤ longest_text }
    ensures within { result ≤ at + 266 }
    ensures told { (v : Volume ℕ) → BlocksOf rows.now.image.now rows.now.ids.now rows.now.spots.now v → inode_of (by_place rows.now.image.now) v ((by_place rows.now.image.now).id p) ≡ some p → Wrote text.old at (words_of (by_place rows.now.image.now) v ((by_place rows.now.image.now).id p)) text.new result }
{
    let id = id_at(rows.image, p);
    if id == ROOT {
        return push(text, at, SLASH);
    }
    let start = p as usize + InodeHeader::SIZE;
    let end = start + name_size(rows.image, p);
    let next = print(text, at, &rows.image[start..end]);
    if is_directory_id(id) {
        return next;
    }
    show_size(rows, text, next, id)
}

// Writes the line of the inode at `p`.
fn show_line(rows: &TakenRows<'_>, text: &mut [u8], at: usize, p: u32, depth: usize) -> usize
    requires block_table { BlockTable rows.now.image.now rows.now.ids.now rows.now.spots.now }
    requires ids_len_bound { length rows.now.ids.now ≤ most_blocks }
    requires inode_at { InodeAt rows.now.image.now p }
    requires depth_le_most_depth { depth ≤ most_depth }
    requires at_bound { at + 331 ≤ longest_text }
    ensures within { result ≤ at + 331 }
    ensures told { (v : Volume ℕ) → BlocksOf rows.now.image.now rows.now.ids.now rows.now.spots.now v → inode_of (by_place rows.now.image.now) v ((by_place rows.now.image.now).id p) ≡ some p → Wrote text.old at (line_of depth (words_of (by_place rows.now.image.now) v ((by_place rows.now.image.now).id p))) text.new result }
{
    let start = indent(text, at, depth);
    let end = show_words(rows, text, start, p);
    push(text, end, NEWLINE)
}

// Whether an inode names the directory as its parent.
fn has_entry(image: &[u8], order: &[u32], directory: u32) -> bool
    requires { Inodes image.now order.now }
    ensures { deeper_for (entries_at image.now order.now directory) ≡ cond result (deeper ∷ []) [] }
{
    order.iter().any(|p| link_at(image, *p) == directory)
}

// Writes that there is more, where the directory has entries.
fn show_deeper(image: &[u8], order: &[u32], text: &mut [u8], at: usize, directory: u32) -> usize
    requires inodes { Inodes image.now order.now }
    requires deeper_room_bound { at + deeper_room ≤ longest_text }
    ensures within { result ≤ at + deeper_room }
    ensures told { (v : Volume ℕ) → Wrote text.old at (text_of image.now v (deeper_for (entries_at image.now order.now directory))) text.new result }
{
    if has_entry(image, order, directory) {
        let start = indent(text, at, MOST_DEPTH + 1);
        let end = print(text, start, b"deeper");
        push(text, end, NEWLINE)
    } else {
        at
    }
}

// Shows the entries of a directory, of at most `levels` more levels. Showing an entry shows what lies below it, and the levels fall: so this ends.
#[cycle(show_directory_show_entry)]
fn show_directory(
    rows: &TakenRows<'_>,
    order: &[u32],
    text: &mut [u8],
    cursor: Cursor,
    directory: u32,
    levels: usize,
) -> Cursor
    requires showable { Showable rows.now.image.now rows.now.ids.now rows.now.spots.now order.now }
    requires levels_le_most_depth { levels ≤ most_depth }
    requires deeper_room_bound { reach cursor + deeper_room ≤ longest_text }
    ensures within { reach result ≤ reach cursor + deeper_room }
    ensures told { DirectoryShown rows.now.image.now rows.now.ids.now rows.now.spots.now order.now directory levels text.old cursor text.new result }
{
    if levels == 0 {
        let at = show_deeper(rows.image, order, text, cursor.at, directory);
        return Cursor { at, ..cursor };
    }
    let mut c = cursor;
    for p in order {
        if link_at(rows.image, *p) == directory {
            c = show_entry(rows, order, text, c, *p, levels - 1);
        }
    }
    c
}

// Shows an entry: its line, and, where it is a directory, that directory. The entries that may still be shown fall.
#[cycle(show_directory_show_entry)]
fn show_entry(
    rows: &TakenRows<'_>,
    order: &[u32],
    text: &mut [u8],
    cursor: Cursor,
    p: u32,
    levels: usize,
) -> Cursor
    requires showable { Showable rows.now.image.now rows.now.ids.now rows.now.spots.now order.now }
    requires inode_at { InodeAt rows.now.image.now p }
    requires levels_le_most_depth { levels ≤ most_depth }
    requires cursor_bound { reach cursor ≤ longest_text }
    ensures within { reach result ≤ reach cursor }
    ensures told { EntryShown rows.now.image.now rows.now.ids.now rows.now.spots.now order.now p levels text.old cursor text.new result }
{
    if cursor.left == 0 {
        return cursor;
    }
    let at = show_line(rows, text, cursor.at, p, MOST_DEPTH - levels);
    let next = Cursor {
        at,
        left: cursor.left - 1,
    };
    let entry = id_at(rows.image, p);
    if is_directory_id(entry) {
        return show_directory(rows, order, text, next, entry, levels);
    }
    next
}

// Shows the whole tree, of which the root is at `root`, and answers the length of its text.
pub fn show_tree(rows: &TakenRows<'_>, order: &[u32], text: &mut [u8], root: u32) -> usize
    requires showable { Showable rows.now.image.now rows.now.ids.now rows.now.spots.now order.now }
    requires inode_at { InodeAt rows.now.image.now root }
    requires order_len_bound { length order.now ≤ most_inodes }
    ensures within { result ≤ longest_text }
    ensures told { (v : Volume ℕ) → Lists rows.now.image.now rows.now.ids.now rows.now.spots.now order.now v → inode_of (by_place rows.now.image.now) v root_id ≡ some root → length (ids_shown (show_directory (by_place rows.now.image.now) v most_depth root_id)) ≤ length order.now → Wrote text.old 0 (tree_text (by_place rows.now.image.now) v) text.new result }
{
    let at = show_line(rows, text, 0, root, 0);
    let cursor = Cursor {
        at,
        left: order.len(),
    };
    let end = show_directory(rows, order, text, cursor, ROOT, MOST_DEPTH);
    end.at
}
