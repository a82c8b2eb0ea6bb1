// Rename over a mounted volume: the inode of the old path rewritten below what all but the last name of the new path lead to.
#![tactic(auto)]

ghost use Rattle.std.specs.Prelude.{◌≡◌, List};
ghost use Rattle.calls.specs.Mount.{volume};
ghost use Rattle.calls.specs.Attempt.{number_of};
ghost use Rattle.calls.specs.Outcome.{outcome_of};
ghost use Rattle.calls.specs.Rename.{moves_into_itself, move_number, rename_of, image_renamed};
ghost use Rattle.calls.specs.declared.Descriptor.{Descriptor};
ghost use Rattle.path_find.specs.Parent.{ShortName};
ghost use Rattle.write_inodes.specs.Rewriting.{image_if};
ghost use Rattle.mount_state.specs.State.{Safe, Holds};

use calls::Refusal;
use inode_lineage::in_lineage;
use mount_state::Mounted;
use path_find::{check_name, find_parent, find_path, is_below_root, last_name};
use record_read::ROOT;
use write_inodes::rewrite_inode;

// Whether an inode cannot go below a directory: it is the root, or that directory or one above it.
fn moves_into_itself(image: &[u8], tables: &[u32], m: Mounted, id: u32, directory: u32) -> bool
    requires { Safe image.now m tables.now }
    ensures { (ds : List Descriptor) → Holds image.now ds m tables.now → result ≡ moves_into_itself (volume image.now ds) id directory }
{
    if id == ROOT {
        return true;
    }
    in_lineage(&m.inode_rows(image, tables), directory, id)
}

// Rewrites an inode with a new parent and name.
fn move_inode(
    image: &mut [u8],
    tables: &[u32],
    m: Mounted,
    id: u32,
    directory: u32,
    name: &[u8],
) -> Result<(), Refusal>
    requires safe { Safe image.old m tables.now }
    requires short_name { ShortName name.now }
    ensures { (ds : List Descriptor) → Holds image.old ds m tables.now → (number_of (outcome_of result) ≡ move_number image.old ds id directory name.now) × (image.new ≡ image_if (number_of (outcome_of result)) image.old ds id directory name.now) }
{
    check_name(image, tables, m, directory, name)?;
    if moves_into_itself(image, tables, m, id, directory) {
        return Err(Refusal::IntoItself);
    }
    rewrite_inode(image, tables, m, id, directory, name)
}

// Renames what the old path leads to; what lies below a directory goes with it.
pub fn rename_mounted<'a>(
    image: &mut [u8],
    tables: &[u32],
    m: Mounted,
    base: &'a [u8],
    old: &'a [u8],
    new: &'a [u8],
) -> Result<(), Refusal>
    requires { Safe image.old m tables.now }
    ensures { (ds : List Descriptor) → Holds image.old ds m tables.now → (number_of (outcome_of result) ≡ rename_of image.old ds base.now old.now new.now) × (image.new ≡ image_renamed image.old ds base.now old.now new.now) }
{
    if !is_below_root(base, new) {
        return Err(Refusal::BadPath);
    }
    let id = find_path(image, tables, m, base, old)?;
    let directory = find_parent(image, tables, m, base, new)?;
    move_inode(image, tables, m, id, directory, last_name(base, new))
}
