// The check of records, CRC-16/XMODEM: four bytes a turn by tables, and what is left two a turn without them.
#![tactic(auto)]

mod tables;

ghost use Rattle.std.specs.Prelude.{◌≡◌};
ghost use Rattle.format.specs.Crc.{crc_over, check};
ghost use Rattle.crc_laws.specs.Table.{TableOf, high_later, low_later};

use crc16_register::{four, one, two};
use tables::{HIGH, LOW};

// The register after the bytes of `s`, two a turn.
#[tactic(auto, using(crate::proofs::Chunks::two_chunk, format_laws::specs::Crc::crc_step, format_laws::specs::Crc::crc_end))]
fn two_a_turn(start: u16, s: &[u8]) -> u16
    ensures { result ≡ crc_over start s.now }
{
    let (twos, rest) = s.as_chunks::<2>();
    let mut r = start;
    for [b, c] in twos {
        r = two(r, *b, *c);
    }
    for b in rest {
        r = one(r, *b);
    }
    r
}

// The table of the register's high byte, as a copy.
#[tactic(auto, using(crate::proofs::Rules::high_rule))]
pub fn high_table() -> [u16; 256]
    ensures { TableOf high_later result }
{
    HIGH
}

// The table of its low byte, as a copy.
#[tactic(auto, using(crate::proofs::Rules::low_rule))]
pub fn low_table() -> [u16; 256]
    ensures { TableOf low_later result }
{
    LOW
}

// The register after the bytes of `s`, four a turn; who checks a body in parts goes on from one to the next. The tables are statics, since no compiled
// code copies those.
#[tactic(auto, using(crate::proofs::Chunks::four_chunk, crate::proofs::Rules::high_rule, crate::proofs::Rules::low_rule))]
pub fn over(start: u16, s: &[u8]) -> u16
    ensures { result ≡ crc_over start s.now }
{
    let (fours, rest) = s.as_chunks::<4>();
    let mut r = start;
    for [b, c, d, e] in fours {
        r = four(&HIGH, &LOW, r, *b, *c, *d, *e);
    }
    two_a_turn(r, rest)
}

// The check over the header bytes before the check field, and then the body.
#[tactic(auto, unfolding(format::specs::Crc::check))]
pub fn check(front: &[u8], body: &[u8]) -> u16
    ensures { result ≡ check front.now body.now }
{
    over(over(0, front), body)
}
