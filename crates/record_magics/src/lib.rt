// The search for the magics of records (T-10). Their eight bytes are different, so that a byte tells of the four places up to its own: no record starts
// there, or at one of them at most.
#![tactic(auto)]

ghost use Rattle.std.specs.Prelude.{◌≡◌, ◌+◌, ◌≤◌, ◌<◌, length, MatchOption};
ghost use Rattle.record_magics.specs.Magic.{start_of, in_magic, magic_at, erased_fourths, clear_all, Passed, Onward};

use byte_fields::load32;
use byte_store::ERASED;
use record_read::{BlockHeader, InodeHeader};

// Which bytes the magics of records have: bit b % 64 of word b / 64 is 1 for such a byte b.
static MARKS: [u64; 4] = [
    0x0000000800000000,
    0x0000000080080000,
    0x0600000000040800,
    0x0000000000000001,
];

// Whether a magic has the byte `b`.
fn marked(b: u8) -> bool
    ensures { result ≡ in_magic b }
{
    let place = usize::from(b);
    (MARKS[place / 64] >> (place % 64)) % 2 == 1
}

// Of four places in a row, counted from 0, the one where a magic starts that has `b` at the last of them, if a magic has it.
#[tactic(auto, unfolding(crate::specs::Magic::start_of))]
fn start_of(b: u8) -> Option<usize>
    ensures { MatchOption result (start_of b ≡ 4) (λ i. (i ≡ start_of b) × (i < 4)) }
{
    match b {
        0xc0 | 0xb9 => Some(3),
        0x8b | 0x23 => Some(2),
        0x5f | 0xba => Some(1),
        0x92 | 0x53 => Some(0),
        _ => None,
    }
}

// Whether the magic of a record stands at `at`.
#[tactic(auto, unfolding(crate::specs::Magic::magic_at))]
fn magic_at(area: &[u8], at: usize) -> bool
    requires { at + 4 ≤ length area.now }
    ensures { result ≡ magic_at area.now at }
{
    matches!(load32(area, at), InodeHeader::MAGIC | BlockHeader::MAGIC)
}

// Which of the four places from `at` on has a magic, counted from 0. The byte at the last of them leaves one place at most.
fn magic_in_four(area: &[u8], at: usize) -> Option<usize>
    requires { at + 7 ≤ length area.now }
    ensures { MatchOption result (Passed area.now at 4) (λ i. (i < 4) × Passed area.now at i) }
{
    let last = area[at + 3];
    if !marked(last) {
        return None;
    }
    let i = start_of(last)?;
    magic_at(area, at + i).then_some(i)
}

// Whether the four bytes that tell of the sixteen places from `at` on, the last of each four, are erased: the quick way through free space.
#[tactic(auto, unfolding(crate::specs::Magic::erased_fourths))]
fn erased_fourths(area: &[u8], at: usize) -> bool
    requires { at + 16 ≤ length area.now }
    ensures { result ≡ erased_fourths area.now at }
{
    area[at + 3] == ERASED
        && area[at + 7] == ERASED
        && area[at + 11] == ERASED
        && area[at + 15] == ERASED
}

// Whether none of these four bytes is in a magic.
#[tactic(auto, using(crate::specs::Laws::erased_clear), unfolding(crate::specs::Magic::clear_all))]
fn clear_sixteen(area: &[u8], at: usize) -> bool
    requires { at + 16 ≤ length area.now }
    ensures { result ≡ clear_all area.now at }
{
    erased_fourths(area, at)
        || !marked(area[at + 3])
            && !marked(area[at + 7])
            && !marked(area[at + 11])
            && !marked(area[at + 15])
}

// The place to look at next, from `from` on: no record starts before it. The search stops at a magic, from `stop` on, or goes on to the area's end.
pub fn next_magic(area: &[u8], from: usize, stop: usize) -> usize
    ensures { Onward area.now from result }
{
    // behind the last place that has room for a record's header
    let end = area.len().saturating_sub(InodeHeader::SIZE - 1);
    let mut at = from;
    while at < end {
        if stop <= at {
            return at;
        }
        if clear_sixteen(area, at) {
            at += 16;
        } else if let Some(i) = magic_in_four(area, at) {
            return at + i;
        } else {
            at += 4;
        }
    }
    at.max(area.len())
}
