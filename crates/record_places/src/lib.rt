// Records held by their places in an image: their fields, and whether two of them have the same bytes.
#![tactic(auto)]

ghost use Rattle.std.specs.Prelude.{◌≡◌, ◌+◌, ◌≤◌};
ghost use Rattle.format.specs.Bytes.{le32};
ghost use Rattle.format.specs.Record.{inode};
ghost use Rattle.record_places.specs.Place.{block_at, size_at, bytes_at, by_place, Lies};

use byte_equal::equal;
use byte_fields::{load16, load32};
use record_read::{BlockHeader, ID_AT, InodeHeader, LINK_AT, SEQUENCE_AT};

// The 32-bit field at `k` of the header of the record at `p`; the shorter header, an inode's, has 20 bytes.
#[tactic(auto, using(crate::specs::Laws::size_least))]
fn word_at(image: &[u8], p: u32, k: usize) -> u32
    requires lies { Lies image.now p }
    requires k_bound { k + 4 ≤ inode.header_size }
    ensures { result ≡ le32 image.now (p + k) }
{
    load32(image, p as usize + k)
}

// The id of the record at `p`.
pub fn id_at(image: &[u8], p: u32) -> u32
    requires { Lies image.now p }
    ensures { result ≡ (by_place image.now).id p }
{
    word_at(image, p, ID_AT)
}

// Its sequence.
pub fn sequence_at(image: &[u8], p: u32) -> u32
    requires { Lies image.now p }
    ensures { result ≡ (by_place image.now).sequence p }
{
    word_at(image, p, SEQUENCE_AT)
}

// The parent of an inode, the owner of a block.
pub fn link_at(image: &[u8], p: u32) -> u32
    requires { Lies image.now p }
    ensures { result ≡ (by_place image.now).parent p }
{
    word_at(image, p, LINK_AT)
}

// The block before the block at `p`.
pub fn previous_at(image: &[u8], p: u32) -> u32
    requires { Lies image.now p }
    ensures { result ≡ (by_place image.now).previous p }
{
    word_at(image, p, BlockHeader::PREVIOUS_AT)
}

// Whether the record at `p` is a block.
pub fn is_block_at(image: &[u8], p: u32) -> bool
    requires { Lies image.now p }
    ensures { result ≡ block_at image.now p }
{
    word_at(image, p, 0) == BlockHeader::MAGIC
}

// Its size.
#[tactic(auto, using(crate::specs::Laws::size_block, crate::specs::Laws::size_inode, crate::specs::Laws::size_least))]
pub fn size_at(image: &[u8], p: u32) -> usize
    requires { Lies image.now p }
    ensures { result ≡ size_at image.now p }
{
    if is_block_at(image, p) {
        BlockHeader::SIZE + load16(image, p as usize + BlockHeader::LENGTH_AT) as usize
    } else {
        InodeHeader::SIZE + usize::from(image[p as usize + InodeHeader::LENGTH_AT])
    }
}

// Its bytes.
#[tactic(auto, unfolding(crate::specs::Place::bytes_at))]
fn bytes_at(image: &[u8], p: u32) -> &[u8]
    requires { Lies image.now p }
    ensures { result.now ≡ bytes_at image.now p }
{
    let at = p as usize;
    &image[at..at + size_at(image, p)]
}

// Whether the records at `p` and `q` have the same bytes. Their ids tell most records apart at once.
#[tactic(auto, using(crate::specs::Laws::ids_apart))]
pub fn same_bytes(image: &[u8], p: u32, q: u32) -> bool
    requires lies { Lies image.now p }
    requires lies_2 { Lies image.now q }
    ensures { result ≡ (by_place image.now).same p q }
{
    id_at(image, p) == id_at(image, q) && equal(bytes_at(image, p), bytes_at(image, q))
}
