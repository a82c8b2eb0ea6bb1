// The pieces that an append cuts its data into: which ids and places they get, and their stores.
// Ids and places are all found before the first store, so that all pieces are written or none.
#![tactic(auto)]

ghost use Rattle.std.specs.Prelude.{◌≡◌, List, map, ◌+◌, ◌≤◌, length};
ghost use Rattle.format.specs.Record.{block, longest_data};
ghost use Rattle.format.specs.Encoding.{block_bytes};
ghost use Rattle.calls.specs.Areas.{file_areas};
ghost use Rattle.calls.specs.Mount.{most_blocks, most_records};
ghost use Rattle.calls.specs.Image.{put};
ghost use Rattle.calls.specs.Storing.{spaces, store_all};
ghost use Rattle.calls.specs.declared.Descriptor.{Descriptor};
ghost use Rattle.record_places.specs.Place.{AllLie};
ghost use Rattle.mount_state.specs.State.{Safe, Holds};
ghost use Rattle.write_ids.specs.Window.{named_at};
ghost use Rattle.write_room.specs.Spaces.{spaces_of};
ghost use Rattle.write_room.specs.Plan.{places_for, PlannedAt, planned_of};
ghost use Rattle.write_sizes.specs.Cut.{pieces};
ghost use Rattle.write_pieces.specs.Plan.{ids_for, stores_of};
ghost use Rattle.write_pieces.specs.Laws.{Ready};

use calls::MOST_AREAS;
use mount_state::Mounted;
use record_read::{BlockHeader, FIRST_BLOCK_ID};
use record_write::write_block;
use write_ids::{ID_WORDS, mark_named, take_id};
use write_room::{find_spaces, take_place};

// Takes a place for each piece; answers whether there is room for all.
fn take_places(
    froms: &mut [u32],
    ends: &[u32],
    text: &[u8],
    size: usize,
    places: &mut [u32],
) -> bool
    requires froms_len { (length froms.old ≡ length ends.now) × (1 ≤ size) × (size ≤ longest_data) }
    requires places_len { length places.old ≡ length (pieces size text.now) }
    ensures { places_for (spaces_of froms.old ends.now) (map length (pieces size text.now)) ≡ planned_of result places.new }
{
    for (i, piece) in text.chunks(size).enumerate() {
        let Some(at) = take_place(froms, ends, BlockHeader::SIZE + piece.len()) else {
            return false;
        };
        places[i] = at;
    }
    true
}

// Finds a place in the file areas for each piece; answers whether there is room for all.
pub fn plan_places(
    image: &[u8],
    tables: &[u32],
    m: Mounted,
    text: &[u8],
    size: usize,
    places: &mut [u32],
) -> bool
    requires safe { Safe image.now m tables.now }
    requires le_size { (1 ≤ size) × (size ≤ longest_data) }
    requires places_len { length places.old ≡ length (pieces size text.now) }
    ensures are { (ds : List Descriptor) → Holds image.now ds m tables.now → places_for (spaces image.now (file_areas image.now ds)) (map length (pieces size text.now)) ≡ planned_of result places.new }
    ensures inside { PlannedAt (length image.now) (map length (pieces size text.now)) (planned_of result places.new) }
{
    let mut froms = [0u32; MOST_AREAS];
    let mut ends = [0u32; MOST_AREAS];
    let n = find_spaces(tables, m.files, &mut froms, &mut ends);
    take_places(&mut froms[..n], &ends[..n], text, size, places)
}

// The smallest block ids that no record names, in order, none of them twice.
pub fn plan_ids(image: &[u8], records: &[u16], ids: &mut [u32])
    requires all_lie { AllLie image.now records.now (length records.now) }
    requires records_len_bound { (length records.now ≤ most_records) × (length ids.old ≤ most_blocks) }
    ensures { ids.new ≡ ids_for (named_at image.now records.now) (length ids.old) }
{
    let mut words = [0u64; ID_WORDS];
    mark_named(image, records, &mut words, FIRST_BLOCK_ID);
    for id in ids.iter_mut() {
        *id = take_id(&mut words, FIRST_BLOCK_ID);
    }
}

// Stores one piece as a block of the file.
fn store_piece(image: &mut [u8], at: u32, id: u32, file: u32, previous: u32, piece: &[u8])
    requires { (at + (block.header_size + length piece.now) ≤ length image.old) × (length piece.now ≤ longest_data) }
    ensures { image.new ≡ put image.old at (block_bytes id 0 file previous piece.now) }
{
    let header = BlockHeader {
        id,
        sequence: 0,
        owner: file,
        previous,
        length: piece.len() as u32,
    };
    write_block(image, at as usize, header, piece);
}

// Stores the pieces, each naming the one before; the first names the file's last block.
pub fn store_pieces(
    image: &mut [u8],
    ids: &[u32],
    places: &[u32],
    text: &[u8],
    size: usize,
    file: u32,
    last: u32,
)
    requires { Ready size text.now ids.now places.now image.old }
    ensures { image.new ≡ store_all image.old (stores_of ids.now file last (pieces size text.now) places.now) }
{
    let mut previous = last;
    for (i, piece) in text.chunks(size).enumerate() {
        let id = ids[i];
        store_piece(image, places[i], id, file, previous, piece);
        previous = id;
    }
}
