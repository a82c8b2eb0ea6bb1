// Little-endian fields in a slice of bytes.
#![tactic(auto)]

ghost use Rattle.std.specs.Prelude.{◌≡◌, [], ◌+◌, ◌≤◌, ◌<◌, length};
ghost use Rattle.std.proofs.lemmas.List.Edits.{sets};
ghost use Rattle.format.specs.Bytes.{le16, le32, enc16, enc32};

// The 16-bit number at `at`.
#[tactic(auto, unfolding(format::specs::Bytes::le16))]
pub fn load16(s: &[u8], at: usize) -> u32
    requires { at + 2 ≤ length s.now }
    ensures { (result ≡ le16 s.now at) × (result < 65536) }
{
    u32::from(u16::from_le_bytes([s[at], s[at + 1]]))
}

// The 32-bit number at `at`.
#[tactic(auto, unfolding(format::specs::Bytes::le32))]
pub fn load32(s: &[u8], at: usize) -> u32
    requires { at + 4 ≤ length s.now }
    ensures { result ≡ le32 s.now at }
{
    u32::from_le_bytes([s[at], s[at + 1], s[at + 2], s[at + 3]])
}

// Stores the low 16 bits of `v` at `at`.
pub fn store16(d: &mut [u8], at: usize, v: u32)
    requires { at + 2 ≤ length d.old }
    ensures { d.new ≡ sets d.old at (enc16 v []) }
{
    d[at..at + 2].copy_from_slice(&v.to_le_bytes()[..2]);
}

// Stores `v` at `at`.
pub fn store32(d: &mut [u8], at: usize, v: u32)
    requires { at + 4 ≤ length d.old }
    ensures { d.new ≡ sets d.old at (enc32 v []) }
{
    d[at..at + 4].copy_from_slice(&v.to_le_bytes());
}
