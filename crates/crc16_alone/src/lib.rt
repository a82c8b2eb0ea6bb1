// The check alone, for tests to link: it is compared with the model, and its time is taken, apart from the calls.
#![tactic(auto)]

ghost use Rattle.std.specs.Prelude.{◌≡◌};
ghost use Rattle.format.specs.Crc.{check};

use byte_crc16::check;

// The check over the header bytes before the check field, and then the body.
#[unsafe(no_mangle)]
pub extern "C" fn crc16_check(front: &[u8], body: &[u8]) -> u16
    ensures { result ≡ check front.now body.now }
{
    check(front, body)
}
