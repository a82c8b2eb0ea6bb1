// A dose table stored and read back: areas described by a list of structs, and reads by a handle whose position moves.
#![tactic(auto)]

use area_structs::{Areas, ENTRIES, areas_in};
use call_entries::{append_of, create_of, format_of, open_of, read_of};
use calls::{Created, Descriptor, FILE, Handle, ReadAnswer, number};

// Prints the answer of a call.
fn show(call: &[u8], number: u32) {
    io::write_all(1, call);
    io::print_decimal(1, u64::from(number));
    io::write_all(1, b"\n");
}

// Formats the image, and stores the table in a file of its own.
fn store(image: &mut [u8], areas: Areas) {
    show(b"format ", number(format_of(image, areas)));
    show(
        b"create ",
        Created::from(create_of(image, areas, b"/", b"dose", FILE)).number,
    );
    show(
        b"append ",
        number(append_of(image, areas, b"/", b"dose", b"0.5 ml/h, 1.0 ml/h")),
    );
}

// Reads once with a handle, whose position moves on, and prints what was given.
fn read_on(image: &[u8], areas: Areas, h: &mut Handle) {
    let mut buffer = [0; 10];
    let answer = ReadAnswer::from(read_of(image, areas, h, &mut buffer));
    if let Some(given) = buffer.get(..answer.given as usize) {
        io::write_all(1, given);
        io::write_all(1, b"\n");
    }
}

// Two areas: a dose table is stored, opened and read in two reads; prints what each call answers.
fn main() {
    let mut image = [0u8; 2048];
    let first = Descriptor {
        offset: 0,
        length: 1024,
    };
    let second = Descriptor {
        offset: 1024,
        length: 1024,
    };
    let end = Descriptor {
        offset: 0,
        length: 0,
    };
    // what stands behind the end is not looked at
    let mut list = [first; ENTRIES];
    list[1] = second;
    list[2] = end;
    let areas = areas_in(list);
    store(&mut image, areas);
    let opened = open_of(&image, areas, b"/", b"dose");
    show(b"open ", opened.number);
    let mut handle = Handle {
        id: opened.id,
        position: opened.position,
    };
    read_on(&image, areas, &mut handle);
    read_on(&image, areas, &mut handle);
    show(b"position ", handle.position);
}
