// Overwrite in a mounted volume: what the call does once its image is mounted.
// All that can refuse it is asked before the first store.
#![tactic(auto)]

ghost use Rattle.std.specs.Prelude.{◌≡◌, false, List, ◌+◌, ◌≤◌, length};
ghost use Rattle.format.specs.Ids.{is_directory_id};
ghost use Rattle.calls.specs.Mount.{most_blocks};
ghost use Rattle.calls.specs.Append.{most_appended};
ghost use Rattle.calls.specs.Attempt.{number_of};
ghost use Rattle.calls.specs.Outcome.{outcome_of};
ghost use Rattle.calls.specs.Overwrite.{overwrite_of, image_overwritten};
ghost use Rattle.calls.specs.declared.Descriptor.{Descriptor};
ghost use Rattle.mount_state.specs.State.{Safe, Holds};
ghost use Rattle.file_list.specs.Listing.{Listed};
ghost use Rattle.write_versions.specs.Held.{total, Sizes};
ghost use Rattle.call_overwrite.specs.Written.{AllPlaced, Written};
ghost use Rattle.call_overwrite.specs.Outcome.{Outcome, overwrite_at};

use calls::{MOST_APPENDED, MOST_BLOCKS, Refusal};
use file_list::list_file;
use mount_state::Mounted;
use path_find::find_path;
use record_read::is_directory_id;
use write_versions::{Range, any_greatest, plan_versions, store_versions};

// Writes new versions of the blocks that hold a byte of the range, all or none: 16, then 15. A place for each is found, in what is lent to plan in, before the first store.
fn write_planned(
    image: &mut [u8],
    tables: &[u32],
    m: Mounted,
    blocks: &[u32],
    sizes: &[u32],
    range: Range,
    text: &[u8],
    places: &mut [u32],
) -> Result<(), Refusal>
    requires safe { Safe image.old m tables.now }
    requires listed { Listed image.old blocks.now sizes.now }
    requires sizes { Sizes sizes.now }
    requires places_len { (length places.old ≡ length sizes.now) × (range.to ≡ range.from + length text.now) × (range.to ≤ total sizes.now) }
    ensures { (ds : List Descriptor) → Holds image.old ds m tables.now → AllPlaced image.old ds blocks.now → Written image.old ds blocks.now range.from text.now (number_of (outcome_of result)) image.new }
{
    if any_greatest(image, blocks, sizes, range) {
        return Err(Refusal::LastSequence);
    }
    if !plan_versions(image, tables, m, sizes, range, places) {
        return Err(Refusal::NoRoom);
    }
    store_versions(image, blocks, sizes, places, range, text);
    Ok(())
}

// Writes them, with an array for the plan of the most that there may be.
fn write_range(
    image: &mut [u8],
    tables: &[u32],
    m: Mounted,
    blocks: &[u32],
    sizes: &[u32],
    range: Range,
    text: &[u8],
) -> Result<(), Refusal>
    requires safe { Safe image.old m tables.now }
    requires listed { Listed image.old blocks.now sizes.now }
    requires sizes { Sizes sizes.now }
    requires sizes_len_bound { (length sizes.now ≤ most_blocks) × (range.to ≡ range.from + length text.now) × (range.to ≤ total sizes.now) }
    ensures { (ds : List Descriptor) → Holds image.old ds m tables.now → AllPlaced image.old ds blocks.now → Written image.old ds blocks.now range.from text.now (number_of (outcome_of result)) image.new }
{
    let mut places = [0u32; MOST_BLOCKS];
    let n = sizes.len();
    write_planned(
        image,
        tables,
        m,
        blocks,
        sizes,
        range,
        text,
        &mut places[..n],
    )
}

// Overwrites in a file from `offset` on: 13, then 14, then what can refuse the versions.
fn overwrite_in(
    image: &mut [u8],
    tables: &[u32],
    m: Mounted,
    file: u32,
    offset: u32,
    text: &[u8],
) -> Result<(), Refusal>
    requires safe { Safe image.old m tables.now }
    requires text_len_bound { length text.now ≤ most_appended }
    ensures { (ds : List Descriptor) → Holds image.old ds m tables.now → is_directory_id file ≡ false → Outcome image.old ds offset text.now (overwrite_at image.old ds offset text.now file) (number_of (outcome_of result)) image.new }
{
    let mut blocks = [0u32; MOST_BLOCKS];
    let mut sizes = [0u32; MOST_BLOCKS];
    let rows = m.block_rows(image, tables);
    let Some(total) = list_file(&rows, file, &mut blocks, &mut sizes) else {
        return Err(Refusal::Broken);
    };
    let n = total.blocks;
    let size = total.bytes;
    let from = offset as usize;
    let to = from + text.len();
    if to > size {
        return Err(Refusal::PastEnd);
    }
    let range = Range { from, to };
    write_range(image, tables, m, &blocks[..n], &sizes[..n], range, text)
}

// Overwrites in the file that a path leads to, from `offset` on, with a text.
pub fn overwrite_mounted<'a>(
    image: &mut [u8],
    tables: &[u32],
    m: Mounted,
    base: &'a [u8],
    path: &'a [u8],
    offset: u32,
    text: &[u8],
) -> Result<(), Refusal>
    requires { Safe image.old m tables.now }
    ensures { (ds : List Descriptor) → Holds image.old ds m tables.now → (number_of (outcome_of result) ≡ overwrite_of image.old ds base.now path.now offset text.now) × (image.new ≡ image_overwritten image.old ds base.now path.now offset text.now) }
{
    if text.len() > MOST_APPENDED {
        return Err(Refusal::BadPath);
    }
    let file = find_path(image, tables, m, base, path)?;
    if is_directory_id(file) {
        return Err(Refusal::WrongKind);
    }
    overwrite_in(image, tables, m, file, offset, text)
}
