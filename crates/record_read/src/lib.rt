// Inode and block records: their header types, and the acceptable record at the front of some bytes.
#![tactic(auto)]

ghost use Rattle.std.specs.Prelude.{◌≡◌, ◌+◌, ◌≤◌, cond, ◌&&◌, length, take, drop, eqb};
ghost use Rattle.format.specs.Bytes.{le16, le32};
ghost use Rattle.format.specs.Crc.{check};
ghost use Rattle.format.specs.Ids.{is_directory_id, is_file_id, is_block_id};
ghost use Rattle.format.specs.Record.{
  inode,
  block,
  inode_rule,
  block_rule,
  previous_rule,
  name_good,
  inode_rules,
  block_rules,
  acceptable,
  record_size,
};
ghost use Rattle.record_read.specs.Headers.{inode_header, block_header};

use byte_crc16::check;
use byte_fields::{load16, load32};

// The id of nothing: no parent, no block before this one.
pub const NONE: u32 = 0xffffffff;

// The greatest sequence, which no record can follow.
pub const GREATEST_SEQUENCE: u32 = 0xffffffff;

// The longest data that a block may hold.
pub const LONGEST_DATA: u32 = 2048;

// The id of the root directory.
pub const ROOT: u32 = 0;

// The first ids of files and of blocks; those of directories start with the root's.
pub const FIRST_FILE_ID: u32 = 0x10000000;

pub const FIRST_BLOCK_ID: u32 = 0x80000000;

// Where both kinds of header hold id, sequence and link; the link is an inode's parent or a block's owner.
pub const ID_AT: usize = 4;

pub const SEQUENCE_AT: usize = 8;

pub const LINK_AT: usize = 12;

#[derive(Clone, Copy)]
pub struct InodeHeader {
    pub id: u32,
    pub sequence: u32,
    pub parent: u32,
    // of the name
    pub length: u32,
}

#[derive(Clone, Copy)]
pub struct BlockHeader {
    pub id: u32,
    pub sequence: u32,
    pub owner: u32,
    pub previous: u32,
    // of the data
    pub length: u32,
}

// Whether an id is one of a directory.
#[tactic(auto, unfolding(format::specs::Ids::is_directory_id))]
pub fn is_directory_id(id: u32) -> bool
    ensures { result ≡ is_directory_id id }
{
    id < FIRST_FILE_ID
}

// Whether an id is one of a file.
#[tactic(auto, unfolding(format::specs::Ids::is_file_id))]
pub fn is_file_id(id: u32) -> bool
    ensures { result ≡ is_file_id id }
{
    FIRST_FILE_ID <= id && id < FIRST_BLOCK_ID
}

// Whether an id is one of a block.
#[tactic(auto, unfolding(format::specs::Ids::is_block_id))]
pub fn is_block_id(id: u32) -> bool
    ensures { result ≡ is_block_id id }
{
    FIRST_BLOCK_ID <= id && id < NONE
}

impl InodeHeader {
    pub const MAGIC: u32 = 0x925f8bc0;

    pub const SIZE: usize = 20;

    pub const CHECK_OFFSET: usize = 18;

    // Where the reserved byte and the length of the name stand.
    const RESERVED_AT: usize = 16;

    pub const LENGTH_AT: usize = 17;

    // The header at the front of `b`.
    #[tactic(auto, unfolding(crate::specs::Headers::inode_header))]
    pub fn load(b: &[u8]) -> InodeHeader
        requires { 20 ≤ length b.now }
        ensures { result ≡ inode_header b.now }
    {
        InodeHeader {
            id: load32(b, ID_AT),
            sequence: load32(b, SEQUENCE_AT),
            parent: load32(b, LINK_AT),
            length: u32::from(b[InodeHeader::LENGTH_AT]),
        }
    }

    // Whether id, parent and name length go together.
    #[tactic(auto, unfolding(format::specs::Record::inode_rule, format::specs::Ids::is_inode_id))]
    pub fn rule(self) -> bool
        ensures { result ≡ inode_rule self.id self.parent self.length }
    {
        if FIRST_BLOCK_ID <= self.id {
            return false;
        }
        if self.id == ROOT {
            return self.parent == NONE && self.length == 0;
        }
        self.parent == NONE || (is_directory_id(self.parent) && 0 < self.length)
    }
}

// Whether a block of the id `id` may name `previous` as the one before it.
#[tactic(auto, unfolding(format::specs::Record::previous_rule))]
fn previous_rule(id: u32, previous: u32) -> bool
    ensures { result ≡ previous_rule id previous }
{
    previous == NONE || (previous != id && is_block_id(previous))
}

impl BlockHeader {
    pub const MAGIC: u32 = 0x53ba23b9;

    pub const SIZE: usize = 24;

    pub const CHECK_OFFSET: usize = 22;

    // Where the id of the block before it and the length of the data stand.
    pub const PREVIOUS_AT: usize = 16;

    pub const LENGTH_AT: usize = 20;

    // The header at the front of `b`.
    #[tactic(auto, unfolding(crate::specs::Headers::block_header))]
    pub fn load(b: &[u8]) -> BlockHeader
        requires { 24 ≤ length b.now }
        ensures { result ≡ block_header b.now }
    {
        BlockHeader {
            id: load32(b, ID_AT),
            sequence: load32(b, SEQUENCE_AT),
            owner: load32(b, LINK_AT),
            previous: load32(b, BlockHeader::PREVIOUS_AT),
            length: load16(b, BlockHeader::LENGTH_AT),
        }
    }

    // Whether id, owner, previous and data length go together.
    #[tactic(auto, unfolding(format::specs::Record::block_rule))]
    pub fn rule(self) -> bool
        ensures { result ≡ block_rule self.id self.owner self.previous self.length }
    {
        is_block_id(self.id)
            && is_file_id(self.owner)
            && previous_rule(self.id, self.previous)
            && 0 < self.length
            && self.length <= LONGEST_DATA
    }
}

// Whether a name has no '/' and no NUL.
#[tactic(auto, unfolding(format::specs::Record::name_good))]
pub fn name_good(s: &[u8]) -> bool
    ensures { result ≡ name_good s.now }
{
    s.iter().all(|b| *b != 0 && *b != b'/')
}

// Whether the check field at `offset`, the last of a header of `size` bytes, is right for the record `b`.
fn check_right(b: &[u8], offset: usize, size: usize) -> bool
    requires { (offset + 2 ≤ length b.now) × (size ≤ length b.now) }
    ensures { result ≡ eqb (le16 b.now offset) (check (take offset b.now) (drop size b.now)) }
{
    load16(b, offset) == u32::from(check(&b[..offset], &b[size..]))
}

// The rules of an inode: of its reserved byte, of its header's fields, and of its name.
#[tactic(auto, unfolding(format::specs::Record::inode_rules, crate::specs::Headers::inode_header))]
fn inode_rules(b: &[u8]) -> bool
    requires { 20 ≤ length b.now }
    ensures { result ≡ inode_rules b.now }
{
    b[InodeHeader::RESERVED_AT] == 0
        && InodeHeader::load(b).rule()
        && name_good(&b[InodeHeader::SIZE..])
}

// The rules of a block: of its header's fields.
#[tactic(auto, unfolding(format::specs::Record::block_rules, crate::specs::Headers::block_header))]
fn block_rules(b: &[u8]) -> bool
    requires { 24 ≤ length b.now }
    ensures { result ≡ block_rules b.now }
{
    BlockHeader::load(b).rule()
}

// The size of the record whose bytes are `b`, with a header of `size` bytes and the check field at `offset`; 0 if its rules, which `lawful` tells, or
// its check are broken.
fn right_size(b: &[u8], lawful: bool, offset: usize, size: usize) -> usize
    requires { (offset + 2 ≤ length b.now) × (size ≤ length b.now) }
    ensures { result ≡ cond (lawful && eqb (le16 b.now offset) (check (take offset b.now) (drop size b.now))) (length b.now) 0 }
{
    if lawful && check_right(b, offset, size) {
        b.len()
    } else {
        0
    }
}

// The size of the inode at the front of `t`, which has the magic of one; 0 if it is not acceptable.
fn inode_size(t: &[u8]) -> usize
    requires { (20 ≤ length t.now) × (le32 t.now 0 ≡ inode.magic) }
    ensures { result ≡ record_size t.now }
{
    let end = InodeHeader::SIZE + usize::from(t[InodeHeader::LENGTH_AT]);
    let Some(record) = t.get(..end) else {
        return 0;
    };
    right_size(
        record,
        inode_rules(record),
        InodeHeader::CHECK_OFFSET,
        InodeHeader::SIZE,
    )
}

// The same for a block.
fn block_size(t: &[u8]) -> usize
    requires { (24 ≤ length t.now) × (le32 t.now 0 ≡ block.magic) }
    ensures { result ≡ record_size t.now }
{
    let end = BlockHeader::SIZE + load16(t, BlockHeader::LENGTH_AT) as usize;
    let Some(record) = t.get(..end) else {
        return 0;
    };
    right_size(
        record,
        block_rules(record),
        BlockHeader::CHECK_OFFSET,
        BlockHeader::SIZE,
    )
}

// The size of the acceptable record at the front of `t`, 0 where there is none.
#[tactic(auto, using(format_laws::specs::Record::too_short, format_laws::specs::Record::no_magic, format_laws::specs::Record::only_block, format_laws::specs::Record::kind_short))]
pub fn record_size(t: &[u8]) -> usize
    ensures { result ≡ record_size t.now }
{
    if t.len() < InodeHeader::SIZE {
        return 0;
    }
    match load32(t, 0) {
        InodeHeader::MAGIC => inode_size(t),
        BlockHeader::MAGIC if BlockHeader::SIZE <= t.len() => block_size(t),
        _ => 0,
    }
}
