// Create over a mounted volume: a new inode below what all but the last name of a path lead to.
#![tactic(auto)]

ghost use Rattle.std.specs.Prelude.{◌≡◌, List, [], ◌∷◌, ◌≤◌};
ghost use Rattle.format.specs.Ids.{first_block_id};
ghost use Rattle.calls.specs.Areas.{file_areas};
ghost use Rattle.calls.specs.Mount.{volume};
ghost use Rattle.calls.specs.Storing.{spaces, place_all, stored_or};
ghost use Rattle.calls.specs.Create.{first_id_of, new_inode, create_of, image_created};
ghost use Rattle.calls.specs.Answers.{created_seen};
ghost use Rattle.calls.specs.declared.Descriptor.{Descriptor};
ghost use Rattle.path_find.specs.Parent.{ShortName};
ghost use Rattle.mount_state.specs.State.{Safe, Holds, SafePlaces, HoldsPlaces};
ghost use Rattle.call_create.specs.Creating.{stored_answer};

use calls::{DIRECTORY, MOST_INODES, Refusal};
use mount_state::Mounted;
use path_find::{check_name, find_parent, last_name};
use record_read::{FIRST_FILE_ID, InodeHeader, ROOT};
use write_ids::unused_id;
use write_inodes::store_inode;

// The first id of a kind.
fn first_id(kind: u32) -> u32
    ensures is { result ≡ first_id_of kind }
    ensures within { result ≤ first_block_id }
{
    if kind == DIRECTORY {
        ROOT
    } else {
        FIRST_FILE_ID
    }
}

// Stores a new inode of an id that no record names; answers the id.
fn create_in(
    image: &mut [u8],
    tables: &[u32],
    places: &[u16],
    m: Mounted,
    directory: u32,
    name: &[u8],
    kind: u32,
) -> Result<u32, Refusal>
    requires safe { Safe image.old m tables.now }
    requires safe_places { SafePlaces image.old m places.now }
    requires short_name { ShortName name.now }
    ensures { (ds : List Descriptor) → Holds image.old ds m tables.now → HoldsPlaces image.old ds m places.now → (created_seen result ≡ stored_answer (volume image.old ds) kind (place_all (spaces image.old (file_areas image.old ds)) (new_inode (volume image.old ds) kind directory name.now ∷ []))) × (image.new ≡ stored_or image.old (place_all (spaces image.old (file_areas image.old ds)) (new_inode (volume image.old ds) kind directory name.now ∷ []))) }
{
    let id = unused_id(image, &places[..m.records], first_id(kind));
    let inode = InodeHeader {
        id,
        sequence: 0,
        parent: directory,
        length: name.len() as u32,
    };
    store_inode(image, tables, m, inode, name)?;
    Ok(id)
}

// Creates a file or a directory; answers its id.
pub fn create_mounted<'a>(
    image: &mut [u8],
    tables: &[u32],
    places: &[u16],
    m: Mounted,
    base: &'a [u8],
    path: &'a [u8],
    kind: u32,
) -> Result<u32, Refusal>
    requires safe { Safe image.old m tables.now }
    requires safe_places { SafePlaces image.old m places.now }
    ensures { (ds : List Descriptor) → Holds image.old ds m tables.now → HoldsPlaces image.old ds m places.now → (created_seen result ≡ create_of image.old ds base.now path.now kind) × (image.new ≡ image_created image.old ds base.now path.now kind) }
{
    let directory = find_parent(image, tables, m, base, path)?;
    let name = last_name(base, path);
    check_name(image, tables, m, directory, name)?;
    if MOST_INODES <= m.inodes {
        return Err(Refusal::TooManyIds);
    }
    create_in(image, tables, places, m, directory, name, kind)
}
