// Looking a path up in the taken rows of the table of inodes, name by name from the root down.
#![tactic(auto)]

ghost use Rattle.std.specs.Prelude.{◌≡◌, true, false, ℕ, ◌+◌, ◌≤◌, ◌<◌, length, drop, get_or, unwrap_or, IfSome};
ghost use Rattle.volume.specs.Lists.{only};
ghost use Rattle.volume.specs.Counting.{Volume};
ghost use Rattle.volume.specs.Fate.{is_live, fate_of};
ghost use Rattle.volume.specs.Path.{good_path, path_names};
ghost use Rattle.volume.specs.Tree.{is_entry, is_child, children, lookup_names};
ghost use Rattle.record_places.specs.Place.{by_place, block_at, Lies};
ghost use Rattle.table_rows.specs.Rows.{InodeTable};
ghost use Rattle.file_blocks.specs.Blocks.{first_of};
ghost use Rattle.path_walk.specs.Resolved.{InodesOf, only_of, meaning, step_of};

use byte_equal::equal;
use calls::Refusal;
use inode_fate::{fate_of, lives};
use path_names::{after, has_name, name_at, start};
use record_places::link_at;
use record_read::{InodeHeader, ROOT, is_directory_id};
use table_rows::TakenRows;

// The live children of a directory that have one name.
#[derive(Clone, Copy)]
pub enum Child {
    Nobody,
    Several,
    One(u32),
}

// Whether the inode at `p` names the directory as its parent and has the name.
fn is_entry(image: &[u8], p: u32, directory: u32, name: &[u8]) -> bool
    requires lies { Lies image.now p }
    requires p_value { block_at image.now p ≡ false }
    ensures { result ≡ is_entry (by_place image.now) directory name.now p }
{
    if link_at(image, p) != directory {
        return false;
    }
    let at = p as usize;
    let start = at + InodeHeader::SIZE;
    let end = start + usize::from(image[at + InodeHeader::LENGTH_AT]);
    equal(&image[start..end], name)
}

// Whether the inode of an id is live.
pub fn is_live(rows: &TakenRows<'_>, id: u32) -> bool
    requires { InodeTable rows.now.image.now rows.now.ids.now rows.now.spots.now }
    ensures { (v : Volume ℕ) → InodesOf rows.now.image.now rows.now.ids.now rows.now.spots.now v → result ≡ is_live (fate_of (by_place rows.now.image.now) v id) }
{
    lives(fate_of(rows, id))
}

// Whether the inode of a row is a live child of the directory, of the name.
fn is_child(rows: &TakenRows<'_>, directory: u32, name: &[u8], row: usize) -> bool
    requires inode_table { InodeTable rows.now.image.now rows.now.ids.now rows.now.spots.now }
    requires row_in_bounds { row < length rows.now.ids.now }
    ensures { (v : Volume ℕ) → InodesOf rows.now.image.now rows.now.ids.now rows.now.spots.now v → result ≡ is_child (by_place rows.now.image.now) v directory name.now (get_or rows.now.ids.now row 0) }
{
    is_entry(rows.image, rows.spots[row], directory, name) && is_live(rows, rows.ids[row])
}

// The first row from `from` on whose inode is a live child of the directory, of the name.
fn next_child(rows: &TakenRows<'_>, directory: u32, name: &[u8], from: usize) -> Option<usize>
    requires inode_table { InodeTable rows.now.image.now rows.now.ids.now rows.now.spots.now }
    requires from_in_bounds { from ≤ length rows.now.ids.now }
    ensures first { (v : Volume ℕ) → InodesOf rows.now.image.now rows.now.ids.now rows.now.spots.now v → unwrap_or result (length rows.now.ids.now) ≡ from + first_of (is_child (by_place rows.now.image.now) v directory name.now) (drop from rows.now.ids.now) }
    ensures within { IfSome result (λ row. row < length rows.now.ids.now) }
{
    for row in from..rows.ids.len() {
        if is_child(rows, directory, name, row) {
            return Some(row);
        }
    }
    None
}

// The live children of the directory that have the name.
pub fn find_child(rows: &TakenRows<'_>, directory: u32, name: &[u8]) -> Child
    requires { InodeTable rows.now.image.now rows.now.ids.now rows.now.spots.now }
    ensures { (v : Volume ℕ) → InodesOf rows.now.image.now rows.now.ids.now rows.now.spots.now v → only_of result ≡ only (children (by_place rows.now.image.now) v directory name.now) }
{
    let Some(first) = next_child(rows, directory, name, 0) else {
        return Child::Nobody;
    };
    match next_child(rows, directory, name, first + 1) {
        Some(_) => Child::Several,
        None => Child::One(rows.ids[first]),
    }
}

// One step of a walk: what the name leads to, looked for in the inode of an id.
pub fn enter(rows: &TakenRows<'_>, directory: u32, name: &[u8]) -> Result<u32, Refusal>
    requires { InodeTable rows.now.image.now rows.now.ids.now rows.now.spots.now }
    ensures { (v : Volume ℕ) → InodesOf rows.now.image.now rows.now.ids.now rows.now.spots.now v → meaning result ≡ step_of (by_place rows.now.image.now) v directory name.now }
{
    if !is_directory_id(directory) {
        return Err(Refusal::WrongKind);
    }
    match find_child(rows, directory, name) {
        Child::Nobody => Err(Refusal::NotFound),
        Child::Several => Err(Refusal::Ambiguous),
        Child::One(id) => Ok(id),
    }
}

// What a good path leads to: the first step that fails decides.
pub fn resolve<'a>(rows: &TakenRows<'_>, base: &'a [u8], path: &'a [u8]) -> Result<u32, Refusal>
    requires inode_table { InodeTable rows.now.image.now rows.now.ids.now rows.now.spots.now }
    requires path_value { good_path base.now path.now ≡ true }
    ensures { (v : Volume ℕ) → InodesOf rows.now.image.now rows.now.ids.now rows.now.spots.now v → meaning result ≡ lookup_names (by_place rows.now.image.now) v (path_names base.now path.now) }
{
    let mut w = start(base, path);
    let mut at = ROOT;
    while has_name(base, path, w) {
        at = enter(rows, at, name_at(base, path, w))?;
        w = after(base, path, w);
    }
    Ok(at)
}
