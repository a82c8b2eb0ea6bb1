// Document 01, "Measured on the bench": the check's published value, and the area of 4,096 bytes, as it is and with each named flip.
#![tactic(auto)]

ghost use Rattle.std.specs.Prelude.{◌≡◌, ◌≤◌, length};

use area_pass::list_area;
use area_read::{HEADER_SIZE, next_record};
use byte_crc16::check;

// The area's header, the root at 24, the file "a" at 44, its block of 10 at 65 and its block of 5 at 99; FF follows.
const BENCH: [u8; 128] = [
    0xe2, 0x31, 0x8a, 0xb9, 0x8c, 0x42, 0xb0, 0x7f, 0x53, 0x82, 0xe0, 0xac, 0x8e, 0xfc, 0x85, 0xb1,
    0x00, 0x10, 0x00, 0x00, 0x00, 0x00, 0x00, 0x00, 0xc0, 0x8b, 0x5f, 0x92, 0x00, 0x00, 0x00, 0x00,
    0x00, 0x00, 0x00, 0x00, 0xff, 0xff, 0xff, 0xff, 0x00, 0x00, 0x17, 0x51, 0xc0, 0x8b, 0x5f, 0x92,
    0x00, 0x00, 0x00, 0x10, 0x00, 0x00, 0x00, 0x00, 0x00, 0x00, 0x00, 0x00, 0x00, 0x01, 0xf0, 0xc5,
    0x61, 0xb9, 0x23, 0xba, 0x53, 0x00, 0x00, 0x00, 0x80, 0x00, 0x00, 0x00, 0x00, 0x00, 0x00, 0x00,
    0x10, 0xff, 0xff, 0xff, 0xff, 0x0a, 0x00, 0xfa, 0x49, 0x41, 0x41, 0x41, 0x41, 0x41, 0x41, 0x41,
    0x41, 0x41, 0x41, 0xb9, 0x23, 0xba, 0x53, 0x01, 0x00, 0x00, 0x80, 0x00, 0x00, 0x00, 0x00, 0x00,
    0x00, 0x00, 0x10, 0x00, 0x00, 0x00, 0x80, 0x05, 0x00, 0x26, 0x63, 0x41, 0x41, 0x41, 0x41, 0x41,
];

// More places than an area of 4,096 bytes has records: none is shorter than 20 bytes.
const PLACES: usize = 205;

const DIGITS: [u8; 9] = [0x31, 0x32, 0x33, 0x34, 0x35, 0x36, 0x37, 0x38, 0x39];

// Prints a word and a number.
fn show(word: &[u8], n: usize) {
    io::write_all(1, word);
    io::print_decimal(1, n as u64);
}

// What the reading of an area comes to: stretches of damage, their bytes, the first of them (T-08), and where free space starts.
fn show_reading(area: &[u8])
    requires { length area.now ≡ 4096 }
{
    let mut places = [0u16; PLACES];
    let pass = list_area(area, 0, &mut places, 0, 0);
    let damage = pass.damage;
    show(b"stretches ", damage.stretches as usize);
    show(b" skipped ", damage.skipped as usize);
    show(b" first ", damage.offset as usize);
    show(b"+", damage.length as usize);
    show(b" free ", pass.free);
    io::write_all(1, b"\n");
}

// The next record of an area, if there is one, and where the one behind it is sought.
fn show_next(area: &[u8], at: usize) -> usize
    requires { at ≤ length area.now }
    ensures { result ≤ length area.now }
{
    let Some(next) = next_record(area, at, area.len()) else {
        return at;
    };
    show(b"record ", next.at);
    show(b"+", next.size);
    io::write_all(1, b"\n");
    next.at + next.size
}

// The first records of an area, then what its reading comes to.
fn show_area(area: &[u8])
    requires { length area.now ≡ 4096 }
{
    let mut at = HEADER_SIZE;
    for _ in 0..8 {
        at = show_next(area, at);
    }
    show_reading(area);
}

// The check of document 01's nine digits; then the bench area as it is, and with one bit changed at a time.
fn main() {
    io::print_hex(1, u64::from(check(&DIGITS, b"")), 4);
    io::write_all(1, b"\n");
    let mut area = [0xffu8; 4096];
    area[..BENCH.len()].copy_from_slice(&BENCH);
    show_area(&area);
    area[70] ^= 1;
    show_area(&area);
    area[70] ^= 1;
    area[103] ^= 1;
    show_area(&area);
}
