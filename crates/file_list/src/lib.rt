// The blocks of a file listed in file order: where each lies, and how many bytes of data it holds.
#![tactic(auto)]

ghost use Rattle.std.specs.Prelude.{◌≡◌, ℕ, ◌*◌, ◌≤◌, length, IfSome};
ghost use Rattle.volume.specs.Counting.{Volume};
ghost use Rattle.volume.specs.Contents.{chain_back, file_blocks};
ghost use Rattle.calls.specs.Mount.{most_blocks};
ghost use Rattle.record_places.specs.Place.{by_place};
ghost use Rattle.table_rows.specs.Table.{found};
ghost use Rattle.table_rows.specs.Rows.{BlockTable};
ghost use Rattle.file_blocks.specs.Blocks.{BlocksOf};
ghost use Rattle.file_list.specs.Listing.{Lists};
ghost use Rattle.file_list.specs.File.{Filled, file_of};

use file_blocks::{data_length, last_block, own_block, owned_count};
use record_places::previous_at;
use record_read::NONE;
use table_rows::TakenRows;

// How many blocks a file has, and how many bytes they hold.
#[derive(Clone, Copy)]
pub struct Total {
    pub blocks: usize,
    pub bytes: usize,
}

// Lists the chain of just as many blocks of the file as there are rows, followed back from `start`; answers how many bytes they hold, none where they
// form no chain.
fn list_chain(
    rows: &TakenRows<'_>,
    file: u32,
    start: u32,
    blocks: &mut [u32],
    sizes: &mut [u32],
) -> Option<usize>
    requires block_table { BlockTable rows.now.image.now rows.now.ids.now rows.now.spots.now }
    requires sizes_len { (length sizes.old ≡ length blocks.old) × (length blocks.old ≤ most_blocks) }
    ensures small { IfSome result (λ size. size ≤ length blocks.old * 65535) }
    ensures told { Lists rows.now.image.now (chain_back (by_place rows.now.image.now) (found (length rows.now.ids.now) rows.now.ids.now rows.now.spots.now) file (length blocks.old) start) result blocks.new sizes.new }
{
    let mut id = start;
    let mut size = 0;
    for k in (0..blocks.len()).rev() {
        let p = own_block(rows, file, id)?;
        let n = data_length(rows.image, p);
        blocks[k] = p;
        sizes[k] = n as u32;
        size += n;
        id = previous_at(rows.image, p);
    }
    (id == NONE).then_some(size)
}

// Lists the blocks of the file in the first rows; answers how many there are, and how many bytes they hold, none where they form no chain.
pub fn list_file(
    rows: &TakenRows<'_>,
    file: u32,
    blocks: &mut [u32],
    sizes: &mut [u32],
) -> Option<Total>
    requires block_table { BlockTable rows.now.image.now rows.now.ids.now rows.now.spots.now }
    requires ids_in_bounds { (length rows.now.ids.now ≤ length blocks.old) × (length blocks.old ≡ most_blocks) × (length sizes.old ≡ most_blocks) }
    ensures held { Filled rows.now.image.now result blocks.new sizes.new }
    ensures told { (v : Volume ℕ) → BlocksOf rows.now.image.now rows.now.ids.now rows.now.spots.now v → file_of result blocks.new ≡ file_blocks (by_place rows.now.image.now) v file }
{
    let last = last_block(rows, file)?;
    let n = owned_count(rows, file);
    let size = list_chain(rows, file, last, &mut blocks[..n], &mut sizes[..n])?;
    Some(Total {
        blocks: n,
        bytes: size,
    })
}
