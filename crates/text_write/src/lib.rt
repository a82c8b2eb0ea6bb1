// Text written into a lent buffer: as much of it as fits, and how long it is all the same.
#![tactic(auto)]

ghost use Rattle.std.specs.Prelude.{◌≡◌, [], ◌∷◌, ◌+◌, ◌≤◌, ◌<◌, length, drop, replicate};
ghost use Rattle.volume.specs.Listing.{decimal, printed};
ghost use Rattle.text_write.specs.Clip.{Wrote, longest_text};

const SPACE: u8 = 0x20;

const NEWLINE: u8 = 0x0a;

// What a newline in a name is printed as: no name has a slash.
const SLASH: u8 = 0x2f;

const ZERO: u8 = 0x30;

// The most digits of a number of 32 bits.
const DIGITS: usize = 10;

// Writes a byte, and answers where the next one goes.
#[tactic(auto, using(crate::specs::Clip::clip_byte, crate::specs::Clip::clip_past))]
pub fn push(text: &mut [u8], at: usize, byte: u8) -> usize
    requires { at < longest_text }
    ensures { Wrote text.old at (byte ∷ []) text.new result }
{
    if at < text.len() {
        text[at] = byte;
    }
    at + 1
}

// Writes `n` spaces.
pub fn indent(text: &mut [u8], at: usize, n: usize) -> usize
    requires { at + n ≤ longest_text }
    ensures { Wrote text.old at (replicate n 32) text.new result }
{
    for i in 0..n {
        push(text, at + i, SPACE);
    }
    at + n
}

// How a byte of a name is printed.
fn glyph(byte: u8) -> u8
    ensures { printed (byte ∷ []) ≡ result ∷ [] }
{
    if byte == NEWLINE { SLASH } else { byte }
}

// Writes a name, or a word.
pub fn print(text: &mut [u8], at: usize, name: &[u8]) -> usize
    requires { at + length name.now ≤ longest_text }
    ensures { Wrote text.old at (printed name.now) text.new result }
{
    for (i, byte) in name.iter().enumerate() {
        push(text, at + i, glyph(*byte));
    }
    at + name.len()
}

// Spells a number from its last digit on, and answers where its first one stands. It is never inlined: what calls nothing would keep the digits below
// the stack pointer, where the handler of an interrupt may write.
#[inline(never)]
fn spell(n: u32, digits: &mut [u8; DIGITS]) -> usize
    ensures within { result ≤ 10 }
    ensures spelt { drop result digits.new ≡ decimal n }
{
    let mut rest = n;
    let mut at = DIGITS - 1;
    while 10 <= rest {
        digits[at] = ZERO + (rest % 10) as u8;
        rest /= 10;
        at -= 1;
    }
    digits[at] = ZERO + rest as u8;
    at
}

// Writes a number in decimal digits.
pub fn print_number(text: &mut [u8], at: usize, n: u32) -> usize
    requires { at + 10 ≤ longest_text }
    ensures { Wrote text.old at (decimal n) text.new result }
{
    let mut digits = [0u8; DIGITS];
    let first = spell(n, &mut digits);
    print(text, at, &digits[first..])
}
