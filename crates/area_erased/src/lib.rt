// The erased end of an area: where what is written ends.
#![tactic(auto)]

ghost use Rattle.std.specs.Prelude.{◌≡◌, ◌+◌, ◌≤◌, length};
ghost use Rattle.format.specs.Reading.{erased_end};
ghost use Rattle.area_erased.specs.Erased.{erased_eight, erased_thirty_two, ErasedFrom};

use byte_fields::load32;
use byte_store::ERASED;

// Whether the eight bytes from `at` on are erased.
fn erased_eight(s: &[u8], at: usize) -> bool
    requires { at + 8 ≤ length s.now }
    ensures { result ≡ erased_eight s.now at }
{
    u64::from(load32(s, at)) + u64::from(load32(s, at + 4)) * 4294967296 == u64::MAX
}

// Whether the 32 bytes from `at` on are. No test waits for another.
#[tactic(auto, unfolding(crate::specs::Erased::erased_thirty_two))]
fn erased_thirty_two(s: &[u8], at: usize) -> bool
    requires { at + 32 ≤ length s.now }
    ensures { result ≡ erased_thirty_two s.now at }
{
    erased_eight(s, at)
        & erased_eight(s, at + 8)
        & erased_eight(s, at + 16)
        & erased_eight(s, at + 24)
}

// A place from which on `s` is erased, 64 bytes a turn from its end: fewer than 64 before it are.
fn erased_from(s: &[u8]) -> usize
    ensures { ErasedFrom s.now result }
{
    let mut i = s.len();
    while 64 <= i && erased_thirty_two(s, i - 64) & erased_thirty_two(s, i - 32) {
        i -= 64;
    }
    i
}

// How many erased bytes stand at the end of `s`.
pub fn erased_end(s: &[u8]) -> usize
    ensures { result ≡ erased_end s.now }
{
    for i in (0..erased_from(s)).rev() {
        if s[i] != ERASED {
            return s.len() - (i + 1);
        }
    }
    s.len()
}
