// Reading a file by the taken rows of the table of blocks: its bytes into the front of a lent buffer.
#![tactic(auto)]

ghost use Rattle.std.specs.Prelude.{◌≡◌, List, ℕ, ◌+◌, ◌≤◌, length, IfSome};
ghost use Rattle.std.proofs.Math.Option.{some};
ghost use Rattle.volume.specs.Counting.{Volume};
ghost use Rattle.volume.specs.Contents.{file_blocks, text_of, headers_from};
ghost use Rattle.record_places.specs.Place.{by_place};
ghost use Rattle.calls.specs.Mount.{most_blocks};
ghost use Rattle.calls.specs.Answers.{read_seen};
ghost use Rattle.table_rows.specs.Rows.{BlockTable};
ghost use Rattle.file_blocks.specs.Blocks.{BlocksOf};
ghost use Rattle.file_read.specs.Reading.{chain_of, Whole, FullChain, blocks_in, laid, filled, FileRead};

use byte_store::put;
use calls::{BytesRead, Refusal};
use file_blocks::{chain_size, data_length, last_block, own_block, owned_count};
use record_places::previous_at;
use record_read::BlockHeader;
use table_rows::TakenRows;

// The blocks of a file that is whole: `count` of them, followed back from `last`, with `size` bytes in all.
#[derive(Clone, Copy)]
struct Chain {
    file: u32,
    last: u32,
    count: usize,
    size: usize,
}

// Puts text that starts at `begin` of a file into a buffer for the file's bytes from `from` on, as far as it belongs there.
fn lay(text: &[u8], begin: usize, from: usize, buffer: &mut [u8])
    requires { from ≤ begin + length text.now }
    ensures { buffer.new ≡ laid text.now begin from buffer.old }
{
    let to = begin.saturating_sub(from);
    if to < buffer.len() {
        let skip = from.saturating_sub(begin);
        let end = skip + (text.len() - skip).min(buffer.len() - to);
        put(buffer, to, &text[skip..end]);
    }
}

// Puts the file's bytes from `from` on into the buffer, following its blocks back to the one that holds the first of them; answers how many it followed.
fn follow(rows: &TakenRows<'_>, chain: Chain, from: usize, buffer: &mut [u8]) -> usize
    requires block_table { BlockTable rows.now.image.now rows.now.ids.now rows.now.spots.now }
    requires whole { Whole rows.now.image.now rows.now.ids.now rows.now.spots.now chain }
    ensures few { result ≤ chain.count }
    ensures headers { (bs : List ℕ) → chain_of rows.now.image.now rows.now.ids.now rows.now.spots.now chain ≡ some bs → result ≡ headers_from (by_place rows.now.image.now) from bs }
    ensures bytes { (bs : List ℕ) → chain_of rows.now.image.now rows.now.ids.now rows.now.spots.now chain ≡ some bs → buffer.new ≡ filled (text_of (by_place rows.now.image.now) bs) from buffer.old }
{
    let mut id = chain.last;
    let mut left = chain.count;
    let mut end = chain.size;
    while from < end {
        let Some(p) = own_block(rows, chain.file, id) else {
            // never: the chain is whole
            return 0;
        };
        let n = data_length(rows.image, p);
        let start = p as usize + BlockHeader::SIZE;
        let stop = start + n;
        end -= n;
        lay(&rows.image[start..stop], end, from, buffer);
        id = previous_at(rows.image, p);
        left -= 1;
    }
    chain.count - left
}

// The chain of a file's blocks, none where they form none.
fn find_chain(rows: &TakenRows<'_>, file: u32) -> Option<Chain>
    requires block_table { BlockTable rows.now.image.now rows.now.ids.now rows.now.spots.now }
    requires ids_len_bound { length rows.now.ids.now ≤ most_blocks }
    ensures whole { IfSome result (λ chain. FullChain rows.now.image.now rows.now.ids.now rows.now.spots.now chain) }
    ensures told { (v : Volume ℕ) → BlocksOf rows.now.image.now rows.now.ids.now rows.now.spots.now v → file_blocks (by_place rows.now.image.now) v file ≡ blocks_in rows.now.image.now rows.now.ids.now rows.now.spots.now result }
{
    let last = last_block(rows, file)?;
    let count = owned_count(rows, file);
    let size = chain_size(rows, file, last, count)?;
    Some(Chain {
        file,
        last,
        count,
        size,
    })
}

// Reads a live file from `position` on. Its blocks are followed twice: for the size, which alone tells whether it is broken and where the read ends, and for the bytes.
pub fn read_file(
    rows: &TakenRows<'_>,
    file: u32,
    position: u32,
    buffer: &mut [u8],
) -> Result<BytesRead, Refusal>
    requires block_table { BlockTable rows.now.image.now rows.now.ids.now rows.now.spots.now }
    requires ids_len_bound { length rows.now.ids.now ≤ most_blocks }
    ensures { (v : Volume ℕ) → BlocksOf rows.now.image.now rows.now.ids.now rows.now.spots.now v → FileRead rows.now.image.now v file position buffer.old (read_seen result) buffer.new }
{
    let Some(chain) = find_chain(rows, file) else {
        return Err(Refusal::Broken);
    };
    let from = position as usize;
    if from > chain.size {
        return Err(Refusal::PastEnd);
    }
    let given = buffer.len().min(chain.size - from);
    if given == 0 {
        return Ok(BytesRead {
            given: 0,
            headers: 0,
        });
    }
    let headers = follow(rows, chain, from, buffer);
    Ok(BytesRead {
        given: given as u32,
        headers: headers as u32,
    })
}
