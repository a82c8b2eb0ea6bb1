// Records, written into a lent image from their lowest byte on.
#![tactic(auto)]

ghost use Rattle.std.specs.Prelude.{◌≡◌, [], ◌+◌, ◌≤◌, ◌<◌, length};
ghost use Rattle.std.proofs.lemmas.List.Edits.{sets};
ghost use Rattle.format.specs.Bytes.{enc32};
ghost use Rattle.format.specs.Record.{inode, block};
ghost use Rattle.format.specs.Encoding.{inode_front, block_front, sealed, inode_bytes, block_bytes};
ghost use Rattle.format.specs.Crc.{check};
ghost use Rattle.calls.specs.Image.{put, part};
ghost use Rattle.image_laws.specs.Apart.{Apart};

use byte_crc16::{check, over};
use byte_fields::{store16, store32};
use byte_store::{copy, put};
use record_read::{BlockHeader, ID_AT, InodeHeader, LINK_AT, SEQUENCE_AT};

// Stores the fields that both kinds of record start with; the link is an inode's parent or a block's owner.
fn store_common(front: &mut [u8], magic: u32, id: u32, sequence: u32, link: u32)
    requires { 16 ≤ length front.old }
    ensures { front.new ≡ sets front.old 0 (enc32 magic (enc32 id (enc32 sequence (enc32 link [])))) }
{
    store32(front, 0, magic);
    store32(front, ID_AT, id);
    store32(front, SEQUENCE_AT, sequence);
    store32(front, LINK_AT, link);
}

// The bytes of an inode's header before its check. Byte 16 is reserved, and stays 0.
#[tactic(auto, unfolding(format::specs::Encoding::inode_front))]
fn inode_front(h: InodeHeader) -> [u8; InodeHeader::CHECK_OFFSET]
    requires { h.length < 256 }
    ensures { result ≡ inode_front h.id h.sequence h.parent h.length }
{
    let mut front = [0; InodeHeader::CHECK_OFFSET];
    store_common(&mut front, InodeHeader::MAGIC, h.id, h.sequence, h.parent);
    front[InodeHeader::LENGTH_AT] = h.length as u8;
    front
}

// The bytes of a block's header before its check.
#[tactic(auto, unfolding(format::specs::Encoding::block_front))]
fn block_front(h: BlockHeader) -> [u8; BlockHeader::CHECK_OFFSET]
    ensures { result ≡ block_front h.id h.sequence h.owner h.previous h.length }
{
    let mut front = [0; BlockHeader::CHECK_OFFSET];
    store_common(&mut front, BlockHeader::MAGIC, h.id, h.sequence, h.owner);
    store32(&mut front, BlockHeader::PREVIOUS_AT, h.previous);
    store16(&mut front, BlockHeader::LENGTH_AT, h.length);
    front
}

// Stores a record of either kind at `at`: the header bytes before the check, the check, and the body.
#[tactic(auto, using(crate::specs::Sealed::sealed_parts))]
fn write_sealed(image: &mut [u8], at: usize, front: &[u8], body: &[u8])
    requires { at + (length front.now + 2 + length body.now) ≤ length image.old }
    ensures { image.new ≡ put image.old at (sealed front.now body.now) }
{
    let field = check(front, body).to_le_bytes();
    let field_at = at + front.len();
    put(image, at, front);
    put(image, field_at, &field);
    put(image, field_at + field.len(), body);
}

// Stores the inode `h` at `at`, with its name, whose length has one byte in the header.
#[tactic(auto, unfolding(format::specs::Encoding::inode_bytes))]
pub fn write_inode(image: &mut [u8], at: usize, h: InodeHeader, name: &[u8])
    requires name_in_bounds { at + (inode.header_size + length name.now) ≤ length image.old }
    requires length_value { h.length ≡ length name.now }
    requires name_len_bound { length name.now < 256 }
    ensures { image.new ≡ put image.old at (inode_bytes h.id h.sequence h.parent name.now) }
{
    write_sealed(image, at, &inode_front(h), name);
}

// Stores the block `h` at `at`, with its data, whose length has two bytes in the header.
#[tactic(auto, unfolding(format::specs::Encoding::block_bytes))]
pub fn write_block(image: &mut [u8], at: usize, h: BlockHeader, text: &[u8])
    requires text_in_bounds { at + (block.header_size + length text.now) ≤ length image.old }
    requires length_value { h.length ≡ length text.now }
    requires text_len_bound { length text.now < 65536 }
    ensures { image.new ≡ put image.old at (block_bytes h.id h.sequence h.owner h.previous text.now) }
{
    write_sealed(image, at, &block_front(h), text);
}

// The check of a record whose body is `old` with `text` in the place of its bytes from `begin` on.
#[tactic(auto, using(crate::specs::Changed::changed_check))]
fn changed_check(front: &[u8], old: &[u8], begin: usize, text: &[u8]) -> u16
    requires { begin + length text.now ≤ length old.now }
    ensures { result ≡ check front.now (put old.now begin text.now) }
{
    let end = begin + text.len();
    let before = over(over(0, front), &old[..begin]);
    over(over(before, text), &old[end..])
}

// Stores at `to` the `n` bytes from `from` on with `text` in the place of those from `begin` on. What is there then is told only where the two places share no byte.
fn copy_changed(image: &mut [u8], from: usize, to: usize, n: usize, begin: usize, text: &[u8])
    requires { (from + n ≤ length image.old) × (to + n ≤ length image.old) × (begin + length text.now ≤ n) }
    ensures { Apart from n to n → image.new ≡ put image.old to (put (part image.old from n) begin text.now) }
{
    let end = begin + text.len();
    copy(image, from, to, begin);
    put(image, to + begin, text);
    copy(image, from + end, to + end, n - end);
}

// Stores the block `h` at `at`, whose data is that at `from` with `text` in the place of its bytes from `begin` on. What it holds is told only where the two places share no byte.
pub fn write_changed(
    image: &mut [u8],
    at: usize,
    h: BlockHeader,
    from: usize,
    begin: usize,
    text: &[u8],
)
    requires length_in_bounds { (at + (block.header_size + h.length) ≤ length image.old) × (from + h.length ≤ length image.old) }
    requires text_bound { begin + length text.now ≤ h.length }
    ensures { Apart from h.length at (block.header_size + h.length) → image.new ≡ put image.old at (block_bytes h.id h.sequence h.owner h.previous (put (part image.old from h.length) begin text.now)) }
{
    let n = h.length as usize;
    let front = block_front(h);
    let field = changed_check(&front, &image[from..from + n], begin, text).to_le_bytes();
    put(image, at, &front);
    put(image, at + BlockHeader::CHECK_OFFSET, &field);
    copy_changed(image, from, at + BlockHeader::SIZE, n, begin, text);
}
