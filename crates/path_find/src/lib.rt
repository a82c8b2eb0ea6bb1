// What lookup, open and the writes of a mounted volume ask first: what a path leads to, the parent and the last name of a path, the sequence of an inode.
#![tactic(auto)]

ghost use Rattle.std.specs.Prelude.{◌≡◌, List, true, not, ℕ};
ghost use Rattle.volume.specs.View.{by_bytes};
ghost use Rattle.volume.specs.Counting.{Volume, inode_of};
ghost use Rattle.volume.specs.Path.{good_path, path_names};
ghost use Rattle.volume.specs.Tree.{lookup_names};
ghost use Rattle.calls.specs.Mount.{volume};
ghost use Rattle.calls.specs.Lookup.{resolve};
ghost use Rattle.calls.specs.Refusal.{first_refusal};
ghost use Rattle.calls.specs.Attempt.{number_of};
ghost use Rattle.calls.specs.Outcome.{outcome_of};
ghost use Rattle.calls.specs.Create.{last_name, names_before, name_checks};
ghost use Rattle.calls.specs.Rewrite.{sequence_of};
ghost use Rattle.calls.specs.declared.Descriptor.{Descriptor};
ghost use Rattle.record_places.specs.Place.{by_place};
ghost use Rattle.path_names.specs.Names.{any_names};
ghost use Rattle.table_rows.specs.Rows.{InodeTable};
ghost use Rattle.path_walk.specs.Resolved.{InodesOf, only_of, meaning};
ghost use Rattle.mount_state.specs.State.{Safe, Holds};
ghost use Rattle.path_find.specs.Below.{not_below};
ghost use Rattle.path_find.specs.Tree.{below_root};
ghost use Rattle.path_find.specs.Parent.{ShortName, parent_of, Below};
ghost use Rattle.path_find.specs.NewName.{any_of};

use calls::Refusal;
use mount_state::Mounted;
use path_names::{after, good_path, has_name, is_last, name_at, start};
use path_walk::{Child, enter, find_child, resolve};
use record_places::sequence_at;
use record_read::{ROOT, is_directory_id};
use table_rows::TakenRows;

// What a good path leads to.
fn walk<'a>(
    image: &[u8],
    tables: &[u32],
    m: Mounted,
    base: &'a [u8],
    path: &'a [u8],
) -> Result<u32, Refusal>
    requires safe { Safe image.now m tables.now }
    requires path_value { good_path base.now path.now ≡ true }
    ensures { (ds : List Descriptor) → Holds image.now ds m tables.now → meaning result ≡ lookup_names by_bytes (volume image.now ds) (path_names base.now path.now) }
{
    resolve(&m.inode_rows(image, tables), base, path)
}

// What a path leads to.
pub fn find_path<'a>(
    image: &[u8],
    tables: &[u32],
    m: Mounted,
    base: &'a [u8],
    path: &'a [u8],
) -> Result<u32, Refusal>
    requires { Safe image.now m tables.now }
    ensures { (ds : List Descriptor) → Holds image.now ds m tables.now → meaning result ≡ resolve image.now ds base.now path.now }
{
    if !good_path(base, path) {
        return Err(Refusal::BadPath);
    }
    walk(image, tables, m, base, path)
}

// Whether a path is good and names something below the root.
pub fn is_below_root<'a>(base: &'a [u8], path: &'a [u8]) -> bool
    ensures { result ≡ not (not_below base.now path.now) }
{
    if !good_path(base, path) {
        return false;
    }
    let w = start(base, path);
    has_name(base, path, w)
}

// What a path leads to that is not the root.
pub fn find_below<'a>(
    image: &[u8],
    tables: &[u32],
    m: Mounted,
    base: &'a [u8],
    path: &'a [u8],
) -> Result<u32, Refusal>
    requires { Safe image.now m tables.now }
    ensures { (ds : List Descriptor) → Holds image.now ds m tables.now → meaning result ≡ below_root by_bytes (volume image.now ds) base.now path.now }
{
    if !is_below_root(base, path) {
        return Err(Refusal::BadPath);
    }
    walk(image, tables, m, base, path)
}

// The sequence of the record that counts for an inode, 0 where there is none.
pub fn sequence_of(image: &[u8], tables: &[u32], m: Mounted, id: u32) -> u32
    requires { Safe image.now m tables.now }
    ensures { (ds : List Descriptor) → Holds image.now ds m tables.now → result ≡ sequence_of (inode_of by_bytes (volume image.now ds) id) }
{
    let Some(p) = m.inode_rows(image, tables).find(id) else {
        return 0;
    };
    sequence_at(image, p)
}

// The last name of a good path that has one.
pub fn last_name<'a>(base: &'a [u8], path: &'a [u8]) -> &'a [u8]
    requires path_value { good_path base.now path.now ≡ true }
    requires path_value_2 { any_names (path_names base.now path.now) ≡ true }
    ensures is { result.now ≡ last_name (path_names base.now path.now) }
    ensures short { ShortName result.now }
{
    let mut w = start(base, path);
    loop {
        if is_last(base, path, w) {
            return name_at(base, path, w);
        }
        w = after(base, path, w);
    }
}

// What all but the last name of a good path lead to, by the rows of inodes: the first step that fails decides.
fn walk_before<'a>(rows: &TakenRows<'_>, base: &'a [u8], path: &'a [u8]) -> Result<u32, Refusal>
    requires inode_table { InodeTable rows.now.image.now rows.now.ids.now rows.now.spots.now }
    requires path_value { good_path base.now path.now ≡ true }
    requires path_value_2 { any_names (path_names base.now path.now) ≡ true }
    ensures { (v : Volume ℕ) → InodesOf rows.now.image.now rows.now.ids.now rows.now.spots.now v → meaning result ≡ lookup_names (by_place rows.now.image.now) v (names_before (path_names base.now path.now)) }
{
    let mut w = start(base, path);
    let mut at = ROOT;
    loop {
        if is_last(base, path, w) {
            return Ok(at);
        }
        at = enter(rows, at, name_at(base, path, w))?;
        w = after(base, path, w);
    }
}

// Where the last name of a path is to stand. The root has no last name.
pub fn find_parent<'a>(
    image: &[u8],
    tables: &[u32],
    m: Mounted,
    base: &'a [u8],
    path: &'a [u8],
) -> Result<u32, Refusal>
    requires { Safe image.now m tables.now }
    ensures means { (ds : List Descriptor) → Holds image.now ds m tables.now → meaning result ≡ parent_of by_bytes (volume image.now ds) base.now path.now }
    ensures good { Below base.now path.now result }
{
    if !is_below_root(base, path) {
        return Err(Refusal::BadPath);
    }
    walk_before(&m.inode_rows(image, tables), base, path)
}

// Whether a child was found, once or oftener.
fn any_child(child: Child) -> bool
    ensures { result ≡ any_of (only_of child) }
{
    match child {
        Child::Nobody => false,
        Child::Several => true,
        Child::One(_) => true,
    }
}

// Whether an inode may have a new entry of a name: not if it is a file, or the name is there.
pub fn check_name(
    image: &[u8],
    tables: &[u32],
    m: Mounted,
    directory: u32,
    name: &[u8],
) -> Result<(), Refusal>
    requires { Safe image.now m tables.now }
    ensures { (ds : List Descriptor) → Holds image.now ds m tables.now → number_of (outcome_of result) ≡ first_refusal (name_checks (volume image.now ds) directory name.now) }
{
    if !is_directory_id(directory) {
        return Err(Refusal::WrongKind);
    }
    let child = find_child(&m.inode_rows(image, tables), directory, name);
    if any_child(child) {
        return Err(Refusal::Exists);
    }
    Ok(())
}
