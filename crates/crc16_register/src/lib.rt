// The register of the check after one, two and four bytes.
#![tactic(auto)]

ghost use Rattle.std.specs.Prelude.{◌≡◌, ◌+◌, ◌*◌};
ghost use Rattle.format.specs.Crc.{crc_byte};
ghost use Rattle.crc_laws.specs.Register.{crc_bits};
ghost use Rattle.crc_laws.specs.Table.{Tables};

// Two bytes as the check takes them, the first at the top.
fn pair(b: u8, c: u8) -> u16
    ensures { result ≡ b * 256 + c }
{
    u16::from(b) * 256 + u16::from(c)
}

// The register `x` two bytes later, without a table: what is left of it and 16 zero bits, divided by the polynomial.
#[tactic(auto, using(crc_laws::proofs::Remainder::two_later), unfolding(crc_laws::specs::Remainder::remainder))]
fn remainder(x: u16) -> u16
    ensures { result ≡ crc_bits 16 x }
{
    let sum = x ^ (x / 256);
    let quotient = sum ^ (sum / 16) ^ (x / 2048);
    quotient ^ ((quotient % 2048) * 32) ^ ((quotient % 16) * 4096)
}

// The register `x` four bytes later, by the tables of its high byte and of its low one.
#[tactic(auto, using(crc_laws::proofs::Table::four_later))]
fn later(high: &[u16], low: &[u16], x: u16) -> u16
    requires { Tables high.now low.now }
    ensures { result ≡ crc_bits 32 x }
{
    high[usize::from(x / 256)] ^ low[usize::from(x % 256)]
}

// The register after one byte.
#[tactic(auto, using(crc_laws::specs::Bytes::one_byte))]
pub fn one(r: u16, b: u8) -> u16
    ensures { result ≡ crc_byte r b }
{
    remainder((r / 256) ^ u16::from(b)) ^ ((r % 256) * 256)
}

// The register after two bytes.
#[tactic(auto, using(crc_laws::specs::Bytes::two_bytes))]
pub fn two(r: u16, b: u8, c: u8) -> u16
    ensures { result ≡ crc_byte (crc_byte r b) c }
{
    remainder(r ^ pair(b, c))
}

// The register after four bytes.
#[tactic(auto, using(crc_laws::specs::Bytes::four_bytes))]
pub fn four(high: &[u16], low: &[u16], r: u16, b: u8, c: u8, d: u8, e: u8) -> u16
    requires { Tables high.now low.now }
    ensures { result ≡ crc_byte (crc_byte (crc_byte (crc_byte r b) c) d) e }
{
    later(high, low, r ^ pair(b, c)) ^ remainder(pair(d, e))
}
