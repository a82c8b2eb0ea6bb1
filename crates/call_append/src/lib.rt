// Append to a mounted volume: what the call does once its image is mounted.
// All that can refuse it is asked before the first store.
#![tactic(auto)]

ghost use Rattle.std.specs.Prelude.{◌≡◌, false, List, ℕ, ◌≤◌, length};
ghost use Rattle.format.specs.Ids.{is_directory_id};
ghost use Rattle.format.specs.Record.{longest_data};
ghost use Rattle.volume.specs.Counting.{Volume};
ghost use Rattle.calls.specs.Areas.{file_areas};
ghost use Rattle.calls.specs.Mount.{most_blocks, most_records};
ghost use Rattle.calls.specs.Storing.{spaces};
ghost use Rattle.calls.specs.Attempt.{number_of};
ghost use Rattle.calls.specs.Outcome.{outcome_of};
ghost use Rattle.calls.specs.Append.{most_appended, append_of, image_appended};
ghost use Rattle.calls.specs.declared.Descriptor.{Descriptor};
ghost use Rattle.record_places.specs.Place.{AllLie};
ghost use Rattle.table_rows.specs.Answer.{meant};
ghost use Rattle.table_rows.specs.Rows.{BlockTable};
ghost use Rattle.file_blocks.specs.Blocks.{BlocksOf};
ghost use Rattle.write_ids.specs.Window.{named_at};
ghost use Rattle.mount_state.specs.State.{Safe, Holds, SafePlaces, HoldsPlaces};
ghost use Rattle.call_append.specs.Last.{last_unless_broken};
ghost use Rattle.call_append.specs.Written.{size_for, Cut, Room, Written};
ghost use Rattle.call_append.specs.Outcome.{Outcome, append_at};

use area_pass::SPANS;
use calls::{MOST_APPENDED, MOST_BLOCKS, Refusal};
use file_blocks::{file_size, last_block};
use mount_state::Mounted;
use path_find::find_path;
use record_read::is_directory_id;
use table_rows::TakenRows;
use write_pieces::{plan_ids, plan_places, store_pieces};
use write_sizes::{MOST_PIECES, greatest_block, piece_count, shortest};

// The blocks that an append adds to the chain of a file: the block before the first, how long they are and how many.
#[derive(Clone, Copy)]
pub struct Chain {
    pub file: u32,
    pub last: u32,
    pub size: usize,
    pub count: usize,
}

// The block that the first piece follows, NONE where the file is empty. A broken file has none.
fn last_unless_broken(rows: &TakenRows<'_>, file: u32) -> Option<u32>
    requires block_table { BlockTable rows.now.image.now rows.now.ids.now rows.now.spots.now }
    requires ids_len_bound { length rows.now.ids.now ≤ most_blocks }
    ensures { (v : Volume ℕ) → BlocksOf rows.now.image.now rows.now.ids.now rows.now.spots.now v → meant result ≡ last_unless_broken rows.now.image.now v file }
{
    file_size(rows, file)?;
    last_block(rows, file)
}

// How long the pieces are: as long as the shortest file area lets blocks be.
fn piece_size(image: &[u8], tables: &[u32], m: Mounted) -> usize
    requires { Safe image.now m tables.now }
    ensures is { result ≡ size_for m tables.now }
    ensures within { (1 ≤ result) × (result ≤ longest_data) }
{
    let end = SPANS + m.files;
    greatest_block(shortest(&tables[SPANS..end]))
}

// Writes the pieces of the text as blocks of the file, all or none: an id and a place for each is found, in what is lent to plan in, before the first store.
fn write_pieces(
    image: &mut [u8],
    tables: &[u32],
    m: Mounted,
    records: &[u16],
    text: &[u8],
    chain: Chain,
    ids: &mut [u32],
    places: &mut [u32],
) -> Result<(), Refusal>
    requires safe { Safe image.old m tables.now }
    requires all_lie { AllLie image.old records.now (length records.now) }
    requires records_len_bound { length records.now ≤ most_records }
    requires room { Room chain text.now ids.old places.old }
    ensures { (ds : List Descriptor) → Holds image.old ds m tables.now → Written image.old (spaces image.old (file_areas image.old ds)) (named_at image.old records.now) chain text.now (number_of (outcome_of result)) image.new }
{
    if !plan_places(image, tables, m, text, chain.size, places) {
        return Err(Refusal::NoRoom);
    }
    plan_ids(image, records, ids);
    store_pieces(image, ids, places, text, chain.size, chain.file, chain.last);
    Ok(())
}

// Writes the pieces, with arrays for the plan of the most that there may be.
fn write_count(
    image: &mut [u8],
    tables: &[u32],
    m: Mounted,
    records: &[u16],
    text: &[u8],
    chain: Chain,
) -> Result<(), Refusal>
    requires safe { Safe image.old m tables.now }
    requires all_lie { AllLie image.old records.now (length records.now) }
    requires records_len_bound { length records.now ≤ most_records }
    requires cut { Cut chain text.now }
    ensures { (ds : List Descriptor) → Holds image.old ds m tables.now → Written image.old (spaces image.old (file_areas image.old ds)) (named_at image.old records.now) chain text.now (number_of (outcome_of result)) image.new }
{
    let mut ids = [0u32; MOST_PIECES];
    let mut places = [0u32; MOST_PIECES];
    let n = chain.count;
    write_pieces(
        image,
        tables,
        m,
        records,
        text,
        chain,
        &mut ids[..n],
        &mut places[..n],
    )
}

// Appends to a file: 13, then 5 with the new blocks counted in, then 15.
fn append_to(
    image: &mut [u8],
    tables: &[u32],
    places: &[u16],
    m: Mounted,
    file: u32,
    text: &[u8],
) -> Result<(), Refusal>
    requires safe { Safe image.old m tables.now }
    requires safe_places { SafePlaces image.old m places.now }
    requires text_len_bound { length text.now ≤ most_appended }
    ensures { (ds : List Descriptor) → Holds image.old ds m tables.now → HoldsPlaces image.old ds m places.now → is_directory_id file ≡ false → Outcome image.old ds text.now (append_at image.old ds text.now file) (number_of (outcome_of result)) image.new }
{
    let Some(last) = last_unless_broken(&m.block_rows(image, tables), file) else {
        return Err(Refusal::Broken);
    };
    let size = piece_size(image, tables, m);
    let count = piece_count(text.len(), size);
    if m.blocks + count > MOST_BLOCKS {
        return Err(Refusal::TooManyIds);
    }
    let chain = Chain {
        file,
        last,
        size,
        count,
    };
    write_count(image, tables, m, &places[..m.records], text, chain)
}

// Appends a text to the file that a path leads to.
pub fn append_mounted<'a>(
    image: &mut [u8],
    tables: &[u32],
    places: &[u16],
    m: Mounted,
    base: &'a [u8],
    path: &'a [u8],
    text: &[u8],
) -> Result<(), Refusal>
    requires safe { Safe image.old m tables.now }
    requires safe_places { SafePlaces image.old m places.now }
    ensures { (ds : List Descriptor) → Holds image.old ds m tables.now → HoldsPlaces image.old ds m places.now → (number_of (outcome_of result) ≡ append_of image.old ds base.now path.now text.now) × (image.new ≡ image_appended image.old ds base.now path.now text.now) }
{
    if text.len() > MOST_APPENDED {
        return Err(Refusal::BadPath);
    }
    let file = find_path(image, tables, m, base, path)?;
    if is_directory_id(file) {
        return Err(Refusal::WrongKind);
    }
    append_to(image, tables, places, m, file, text)
}
