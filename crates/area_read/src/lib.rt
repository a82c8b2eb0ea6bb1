// Areas: the kind that an area's header gives it, and the next record from a place on.
#![tactic(auto)]

ghost use Rattle.std.specs.Prelude.{◌≡◌, true, ◌+◌, ◌≤◌, length};
ghost use Rattle.format.specs.AreaHeader.{area_header_size, magics_right, valid_header};
ghost use Rattle.calls.specs.Areas.{good_area, area_bytes};
ghost use Rattle.area_read.specs.Area.{next_record, WrittenTo};
ghost use Rattle.area_read.specs.Kinds.{HasId, HasCount, kind_of};

use area_list::area_end;
use byte_fields::load32;
use calls::Descriptor;
use record_magics::next_magic;
use record_read::record_size;

// The length of an area's header, and where it holds the area's length, version, collection count, reserved byte and id.
pub const HEADER_SIZE: usize = 24;

pub const LENGTH_AT: usize = 16;

const VERSION_AT: usize = 20;

pub const COUNT_AT: usize = 21;

const RESERVED_AT: usize = 22;

pub const ID_AT: usize = 23;

// The id of a scratch area.
pub const SCRATCH_ID: u8 = 255;

// The four numbers that an area's header starts with.
pub const MAGIC1: u32 = 0xb98a31e2;

pub const MAGIC2: u32 = 0x7fb0428c;

pub const MAGIC3: u32 = 0xace08253;

pub const MAGIC4: u32 = 0xb185fc8e;

// The next record: where it starts and its size.
#[derive(Clone, Copy)]
pub struct Next {
    pub at: usize,
    pub size: usize,
}

// What an area is by its header.
#[derive(Clone, Copy)]
pub enum AreaKind {
    File,
    Scratch,
    // without a valid header: passed over
    Invalid,
}

// Whether an area has the four magics.
#[tactic(auto, unfolding(format::specs::AreaHeader::magics_right))]
fn magics_right(area: &[u8]) -> bool
    requires { area_header_size ≤ length area.now }
    ensures { result ≡ magics_right area.now }
{
    load32(area, 0) == MAGIC1
        && load32(area, 4) == MAGIC2
        && load32(area, 8) == MAGIC3
        && load32(area, 12) == MAGIC4
}

// Whether the area, of the length that its descriptor says, has a valid header.
#[tactic(auto, unfolding(format::specs::AreaHeader::valid_header))]
fn valid_header(area: &[u8], described: u32) -> bool
    requires { area_header_size ≤ length area.now }
    ensures { result ≡ valid_header described area.now }
{
    magics_right(area)
        && load32(area, LENGTH_AT) == described
        && area[VERSION_AT] == 0
        && area[RESERVED_AT] == 0
}

// Whether a good area of an image has a valid header.
fn valid_area(image: &[u8], area: Descriptor) -> bool
    requires { good_area (length image.now) area ≡ true }
    ensures { result ≡ valid_header area.length (area_bytes image.now area) }
{
    let end = area_end(area);
    valid_header(&image[area.offset as usize..end], area.length)
}

// The id of the area at `offset`, whatever its length.
pub fn area_id(image: &[u8], offset: u32) -> u8
    requires { offset + area_header_size ≤ length image.now }
    ensures { HasId image.now offset result }
{
    image[offset as usize + ID_AT]
}

// The collection count of the area at `offset`, whatever its length.
pub fn area_count(image: &[u8], offset: u32) -> u8
    requires { offset + area_header_size ≤ length image.now }
    ensures { HasCount image.now offset result }
{
    image[offset as usize + COUNT_AT]
}

// The kind of a good area of an image.
pub fn area_kind(image: &[u8], area: Descriptor) -> AreaKind
    requires { good_area (length image.now) area ≡ true }
    ensures { result ≡ kind_of image.now area }
{
    if !valid_area(image, area) {
        return AreaKind::Invalid;
    }
    if area_id(image, area.offset) == SCRATCH_ID {
        return AreaKind::Scratch;
    }
    AreaKind::File
}

// The first record that starts at `from` or after it, if any. What is written of the area ends at `written`: nothing starts behind that, and the
// search goes no further.
pub fn next_record(area: &[u8], from: usize, written: usize) -> Option<Next>
    requires { WrittenTo area.now from written }
    ensures { result ≡ next_record area.now from }
{
    let mut at = from;
    while at < written {
        let size = record_size(&area[at..]);
        if size != 0 {
            return Some(Next { at, size });
        }
        at = next_magic(area, at + 1, written);
    }
    None
}
