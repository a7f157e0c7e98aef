// A word from its bytes.
ghost use Rattle.std.specs.Prelude.{◌≡◌, ◌+◌, ◌<◌, ◌≤◌, length};
ghost use Rattle.isa.specs.Bytes.{word_at};

fn wide(x: u8) -> u32
    ensures { (result ≡ x) × (result < 256) }
{
    x as u32
}

// The word at a place. Callers have seen that its four bytes are there.
pub fn word_at(bytes: &[u8], at: usize) -> u32
    requires { at + 4 ≤ length bytes.now }
    ensures { result ≡ word_at bytes.now at }
{
    wide(bytes[at])
        + (wide(bytes[at + 1]) << 8)
        + (wide(bytes[at + 2]) << 16)
        + (wide(bytes[at + 3]) << 24)
}
