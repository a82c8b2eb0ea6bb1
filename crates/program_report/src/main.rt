// Document 01's program: the state of the image on standard input, cut into areas of 4,096 bytes.
#![tactic(auto)]

ghost use Rattle.std.specs.Prelude.{IfOk};
ghost use Rattle.io.specs.Counts.{IsPrefixLen};

use calls::Report;
use program_input::report_input;
use std::io::{Read, Result};

// How many buffers of what is left are read at most: input may be endless.
const MOST_FILLS: u64 = 0xffff_ffff;

// Prints a word and a number.
fn show(word: &[u8], n: u32) {
    io::write_all(1, word);
    io::print_decimal(1, u64::from(n));
}

// Reads standard input up to its end, or until the buffer is full, and answers how many bytes came.
fn fill<R: Read>(source: &mut R, buffer: &mut [u8]) -> Result<usize>
    ensures { IfOk result (λ n. IsPrefixLen n buffer.new) }
{
    let mut n = 0;
    while n < buffer.len() {
        match source.read(&mut buffer[n..])? {
            0 => break,
            more => n += more,
        }
    }
    Ok(n)
}

// Reads what is left of standard input, so that its writer can end; the count is not 0 where there was any.
fn drain<R: Read>(source: &mut R) -> Result<usize> {
    let mut rest = 0;
    for _ in 0..MOST_FILLS {
        let mut buffer = io::buffer();
        let n = fill(source, &mut buffer)?;
        if n == 0 {
            break;
        }
        rest = n;
    }
    Ok(rest)
}

// Prints the report of an input.
fn print(image: &[u8]) {
    let r = Report::from(report_input(image));
    show(b"mount ", r.number);
    io::write_all(1, b"\n");
    if r.number == 0 {
        show(b"inodes ", r.inodes);
        show(b" live ", r.live);
        show(b" stretches ", r.stretches);
        show(b" skipped ", r.skipped);
        show(b" first ", r.first_offset);
        show(b"+", r.first_length);
        io::write_all(1, b"\n");
    }
}

// Reads the image and reports on it. Input longer than any image is answered as empty input is: it is no image. Where a read fails, nothing
// is known of the image, and nothing is reported.
fn main(rt: HostRuntime) {
    let mut image = io::large_buffer();
    let mut source = rt.stdin();
    let input = fill(&mut source, &mut image);
    let rest = drain(&mut source);
    let (Ok(n), Ok(rest)) = (input, rest) else {
        io::write_all(2, b"standard input could not be read\n");
        return;
    };
    if rest > 0 {
        print(b"");
    } else {
        print(&image[..n]);
    }
}
