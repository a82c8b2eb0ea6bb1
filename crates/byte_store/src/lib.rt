// Stores into a lent image. Each stores byte by byte from its lowest place on, so that after any number of stores
// a front of its bytes is written and no byte after it.
#![tactic(auto)]

ghost use Rattle.std.specs.Prelude.{◌≡◌, ◌+◌, ◌≤◌, length};
ghost use Rattle.calls.specs.Image.{put, erased, part};
ghost use Rattle.image_laws.specs.Apart.{Apart};

// An erased byte.
pub const ERASED: u8 = 0xff;

// Stores the bytes of `b` from `at` on.
pub fn put(image: &mut [u8], at: usize, b: &[u8])
    requires { at + length b.now ≤ length image.old }
    ensures { image.new ≡ put image.old at b.now }
{
    for (i, byte) in b.iter().enumerate() {
        image[at + i] = *byte;
    }
}

// Erases the `n` bytes from `at` on.
pub fn erase(image: &mut [u8], at: usize, n: usize)
    requires { at + n ≤ length image.old }
    ensures { image.new ≡ put image.old at (erased n) }
{
    for byte in &mut image[at..at + n] {
        *byte = ERASED;
    }
}

// Copies the `n` bytes from `from` on to `to`. Where the two overlap, a byte can be stored over before it is copied.
pub fn copy(image: &mut [u8], from: usize, to: usize, n: usize)
    requires { (from + n ≤ length image.old) × (to + n ≤ length image.old) }
    ensures { Apart from n to n → image.new ≡ put image.old to (part image.old from n) }
{
    for i in 0..n {
        image[to + i] = image[from + i];
    }
}
