// How long the pieces of an append are, by the shortest file area, and how many.
#![tactic(auto)]

ghost use Rattle.std.specs.Prelude.{◌≡◌, ◌+◌, ◌-◌, ◌/◌, ◌≤◌};
ghost use Rattle.format.specs.Record.{longest_data};
ghost use Rattle.format.specs.BlockSize.{greatest_block};
ghost use Rattle.calls.specs.Areas.{shortest_area};
ghost use Rattle.calls.specs.Append.{most_appended};
ghost use Rattle.write_sizes.specs.Cut.{shortest_of};

use area_read::HEADER_SIZE;
use calls::MOST_APPENDED;
use record_read::{BlockHeader, LONGEST_DATA};

// The length of the shortest area.
pub fn shortest(spans: &[u32]) -> u32
    ensures { result ≡ shortest_of spans.now }
{
    spans.iter().copied().min().unwrap_or(0)
}

// The greatest block size of writers, by the shortest file area's length.
#[tactic(auto, unfolding(format::specs::BlockSize::greatest_block))]
pub fn greatest_block(shortest: u32) -> usize
    requires { shortest_area ≤ shortest }
    ensures { result ≡ greatest_block shortest }
{
    let half = (shortest as usize - HEADER_SIZE) / 2;
    (half - BlockHeader::SIZE).min(LONGEST_DATA as usize)
}

// The greatest block size of the shortest areas there are; that none is less is a law (`least-block`).
const LEAST_BLOCK: usize = 28;

// The most pieces of one append.
pub const MOST_PIECES: usize = (MOST_APPENDED + (LEAST_BLOCK - 1)) / LEAST_BLOCK;

// How many pieces of `size` bytes data of a length is cut into.
pub fn piece_count(length: usize, size: usize) -> usize
    requires { (1 ≤ size) × (size ≤ longest_data) × (length ≤ most_appended) }
    ensures { result ≡ (length + (size - 1)) / size }
{
    length.div_ceil(size)
}
