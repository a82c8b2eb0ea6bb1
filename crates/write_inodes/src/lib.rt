// One inode stored in a mounted volume, where the first room for it is: what create, unlink and every later write of one inode go through.
#![tactic(auto)]

ghost use Rattle.std.specs.Prelude.{◌≡◌, List, [], ◌∷◌, ◌<◌, length};
ghost use Rattle.format.specs.Encoding.{inode_bytes};
ghost use Rattle.calls.specs.Areas.{file_areas};
ghost use Rattle.calls.specs.Storing.{spaces, place_all, stored_or};
ghost use Rattle.calls.specs.Attempt.{number_of};
ghost use Rattle.calls.specs.Outcome.{outcome_of};
ghost use Rattle.calls.specs.Rewrite.{rewrite_number};
ghost use Rattle.calls.specs.declared.Descriptor.{Descriptor};
ghost use Rattle.mount_state.specs.State.{Safe, Holds};
ghost use Rattle.write_inodes.specs.Stored.{place_number};
ghost use Rattle.write_inodes.specs.Rewriting.{image_if};

use calls::Refusal;
use mount_state::Mounted;
use path_find::sequence_of;
use record_read::{GREATEST_SEQUENCE, InodeHeader};
use record_write::write_inode;
use write_room::place_one;

// Stores the inode `h` with its name in the first clean file area with room.
pub fn store_inode(
    image: &mut [u8],
    tables: &[u32],
    m: Mounted,
    h: InodeHeader,
    name: &[u8],
) -> Result<(), Refusal>
    requires safe { Safe image.old m tables.now }
    requires length_value { (h.length ≡ length name.now) × (length name.now < 256) }
    ensures { (ds : List Descriptor) → Holds image.old ds m tables.now → (number_of (outcome_of result) ≡ place_number (place_all (spaces image.old (file_areas image.old ds)) (inode_bytes h.id h.sequence h.parent name.now ∷ []))) × (image.new ≡ stored_or image.old (place_all (spaces image.old (file_areas image.old ds)) (inode_bytes h.id h.sequence h.parent name.now ∷ []))) }
{
    let Some(at) = place_one(image, tables, m, InodeHeader::SIZE + name.len()) else {
        return Err(Refusal::NoRoom);
    };
    write_inode(image, at as usize, h, name);
    Ok(())
}

// Rewrites an inode with its sequence plus one, and a parent and a name; a deletion has neither.
pub fn rewrite_inode(
    image: &mut [u8],
    tables: &[u32],
    m: Mounted,
    id: u32,
    parent: u32,
    name: &[u8],
) -> Result<(), Refusal>
    requires safe { Safe image.old m tables.now }
    requires name_len_bound { length name.now < 256 }
    ensures { (ds : List Descriptor) → Holds image.old ds m tables.now → (number_of (outcome_of result) ≡ rewrite_number image.old ds id parent name.now) × (image.new ≡ image_if (number_of (outcome_of result)) image.old ds id parent name.now) }
{
    let sequence = sequence_of(image, tables, m, id);
    if sequence == GREATEST_SEQUENCE {
        return Err(Refusal::LastSequence);
    }
    let inode = InodeHeader {
        id,
        sequence: sequence + 1,
        parent,
        length: name.len() as u32,
    };
    store_inode(image, tables, m, inode, name)
}
