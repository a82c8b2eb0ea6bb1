// Area headers, and erased areas under them, written into a lent image.
#![tactic(auto)]

ghost use Rattle.std.specs.Prelude.{◌≡◌, ◌+◌, ◌≤◌, length};
ghost use Rattle.format.specs.AreaHeader.{area_header_size};
ghost use Rattle.format.specs.Encoding.{area_header};
ghost use Rattle.calls.specs.Areas.{largest_image};
ghost use Rattle.calls.specs.Image.{put};
ghost use Rattle.calls.specs.Format.{empty_area};

use area_read::{COUNT_AT, HEADER_SIZE, ID_AT, LENGTH_AT, MAGIC1, MAGIC2, MAGIC3, MAGIC4};
use byte_fields::store32;
use byte_store::{erase, put};

// The header of an area of `size` bytes. Byte 20 is the version, 0, and byte 22 is reserved.
#[tactic(auto, unfolding(format::specs::Encoding::area_header))]
fn area_header(size: u32, count: u8, id: u8) -> [u8; HEADER_SIZE]
    ensures { result ≡ area_header size count id }
{
    let mut header: [u8; HEADER_SIZE] = [0; HEADER_SIZE];
    store32(&mut header, 0, MAGIC1);
    store32(&mut header, 4, MAGIC2);
    store32(&mut header, 8, MAGIC3);
    store32(&mut header, 12, MAGIC4);
    store32(&mut header, LENGTH_AT, size);
    header[COUNT_AT] = count;
    header[ID_AT] = id;
    header
}

// Stores the header of an area of `size` bytes at `at`.
pub fn write_area_header(image: &mut [u8], at: usize, size: u32, count: u8, id: u8)
    requires { at + area_header_size ≤ length image.old }
    ensures { image.new ≡ put image.old at (area_header size count id) }
{
    put(image, at, &area_header(size, count, id));
}

// Erases an area and writes its header.
#[tactic(auto, using(crate::specs::Headed::headed))]
pub fn write_area(image: &mut [u8], offset: u32, span: u32, count: u8, id: u8)
    requires { (offset + span ≤ length image.old) × (area_header_size ≤ span) × (length image.old ≤ largest_image) }
    ensures { image.new ≡ put image.old offset (empty_area span count id) }
{
    let at = offset as usize;
    erase(image, at, span as usize);
    write_area_header(image, at, span, count, id);
}
