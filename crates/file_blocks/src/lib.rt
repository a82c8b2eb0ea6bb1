// The contents of a file by the taken rows of the table of blocks: its last block, the number of its blocks and its size.
#![tactic(auto)]

ghost use Rattle.std.specs.Prelude.{◌≡◌, true, ◌&&◌, ℕ, ◌+◌, ◌*◌, ◌≤◌, ◌<◌, length, eqb, IfSome};
ghost use Rattle.volume.specs.Counting.{Volume};
ghost use Rattle.volume.specs.Contents.{owned, last_block, chain_back, file_blocks};
ghost use Rattle.calls.specs.Mount.{most_blocks};
ghost use Rattle.record_places.specs.Place.{by_place, block_at, Lies, AllLie};
ghost use Rattle.table_rows.specs.Answer.{meant};
ghost use Rattle.table_rows.specs.Table.{found};
ghost use Rattle.table_rows.specs.Rows.{BlockTable};
ghost use Rattle.file_blocks.specs.Blocks.{BlocksOf, text_size, free, is_end, block_for};

use byte_fields::load16;
use record_places::{id_at, link_at, previous_at};
use record_read::{BlockHeader, NONE};
use table_rows::TakenRows;

// Whether the block at `p` names the file as owner.
fn is_mine(image: &[u8], p: u32, file: u32) -> bool
    requires { Lies image.now p }
    ensures { result ≡ eqb ((by_place image.now).owner p) file }
{
    link_at(image, p) == file
}

// Whether the block at `p` names the file as owner and `id` as the block before it.
fn names(image: &[u8], p: u32, file: u32, id: u32) -> bool
    requires { Lies image.now p }
    ensures { result ≡ (eqb ((by_place image.now).owner p) file && eqb ((by_place image.now).previous p) id) }
{
    is_mine(image, p, file) && previous_at(image, p) == id
}

// Whether no block of the file, of those at `spots`, names `id`.
fn is_free(image: &[u8], spots: &[u32], file: u32, id: u32) -> bool
    requires { AllLie image.now spots.now (length spots.now) }
    ensures { result ≡ free (by_place image.now) file spots.now id }
{
    spots.iter().all(|p| !names(image, *p, file, id))
}

// Whether the block at `p` is one of the file that none of its blocks names.
fn is_end(image: &[u8], spots: &[u32], file: u32, p: u32) -> bool
    requires all_lie { AllLie image.now spots.now (length spots.now) }
    requires lies { Lies image.now p }
    ensures { result ≡ is_end (by_place image.now) file spots.now p }
{
    is_mine(image, p, file) && is_free(image, spots, file, id_at(image, p))
}

// Where the file's chain of blocks starts that is followed back: at the one block of it that none of its blocks names, or at NONE where there is
// no such block; none where there are several.
pub fn last_block(rows: &TakenRows<'_>, file: u32) -> Option<u32>
    ensures { (v : Volume ℕ) → BlocksOf rows.now.image.now rows.now.ids.now rows.now.spots.now v → meant result ≡ last_block (by_place rows.now.image.now) v file }
{
    let mut end = None;
    for p in rows.spots {
        if is_end(rows.image, rows.spots, file, *p) {
            if end.is_some() {
                return None;
            }
            end = Some(id_at(rows.image, *p));
        }
    }
    Some(end.unwrap_or(NONE))
}

// How many counting blocks name the file as owner.
pub fn owned_count(rows: &TakenRows<'_>, file: u32) -> usize
    ensures counted { (v : Volume ℕ) → BlocksOf rows.now.image.now rows.now.ids.now rows.now.spots.now v → result ≡ length (owned (by_place rows.now.image.now) v file) }
    ensures few { result ≤ length rows.now.ids.now }
{
    rows.spots
        .iter()
        .filter(|p| is_mine(rows.image, **p, file))
        .count()
}

// The place of the counting block `id`, if it names the file as owner.
pub fn own_block(rows: &TakenRows<'_>, file: u32, id: u32) -> Option<u32>
    ensures { meant result ≡ block_for (by_place rows.now.image.now) file (found (length rows.now.ids.now) rows.now.ids.now rows.now.spots.now) id }
{
    let p = rows.find(id)?;
    is_mine(rows.image, p, file).then_some(p)
}

// The length of the data of the block at `p`.
pub fn data_length(image: &[u8], p: u32) -> usize
    requires lies_2 { Lies image.now p }
    requires p_value { block_at image.now p ≡ true }
    ensures told { result ≡ length ((by_place image.now).text p) }
    ensures lies { p + 24 + result ≤ length image.now }
    ensures small { result < 65536 }
{
    load16(image, p as usize + BlockHeader::LENGTH_AT) as usize
}

// The size of a chain of just `count` blocks of the file, followed back from `start`; none where they form no chain. The count makes a chain that loops end.
pub fn chain_size(rows: &TakenRows<'_>, file: u32, start: u32, count: usize) -> Option<usize>
    requires block_table { BlockTable rows.now.image.now rows.now.ids.now rows.now.spots.now }
    requires count_le_most_blocks { count ≤ most_blocks }
    ensures small { IfSome result (λ size. size ≤ count * 65535) }
    ensures told { meant result ≡ text_size (by_place rows.now.image.now) (chain_back (by_place rows.now.image.now) (found (length rows.now.ids.now) rows.now.ids.now rows.now.spots.now) file count start) }
{
    let mut id = start;
    let mut size = 0;
    for _ in 0..count {
        let p = own_block(rows, file, id)?;
        size += data_length(rows.image, p);
        id = previous_at(rows.image, p);
    }
    (id == NONE).then_some(size)
}

// The size of the file's contents, none where its blocks form no chain.
pub fn file_size(rows: &TakenRows<'_>, file: u32) -> Option<usize>
    requires block_table { BlockTable rows.now.image.now rows.now.ids.now rows.now.spots.now }
    requires ids_len_bound { length rows.now.ids.now ≤ most_blocks }
    ensures small { IfSome result (λ size. size ≤ most_blocks * 65535) }
    ensures told { (v : Volume ℕ) → BlocksOf rows.now.image.now rows.now.ids.now rows.now.spots.now v → meant result ≡ text_size (by_place rows.now.image.now) (file_blocks (by_place rows.now.image.now) v file) }
{
    let start = last_block(rows, file)?;
    let count = owned_count(rows, file);
    chain_size(rows, file, start, count)
}
