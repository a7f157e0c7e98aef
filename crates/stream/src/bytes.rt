// The bytes of a number that is not whole yet.
ghost use Rattle.std.specs.Prelude.{◌≡◌, ◌%◌, length, set};

// The bytes of a number with one more, which is byte `at` of the contents or of a body. All that stands before a number there is a multiple of four bytes,
// so `at % 4` is its place.
pub fn with_byte(held: [u8; 4], at: usize, b: u8) -> [u8; 4]
    ensures { (result ≡ set held (at % 4) b) × (length result ≡ 4) }
{
    let mut next = held;
    next[at % 4] = b;
    next
}
