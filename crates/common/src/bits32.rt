// 32 bits and the number that they stand for.
ghost use Rattle.std.specs.Prelude.{◌≡◌, ◌+◌, ◌*◌};
ghost use Rattle.integer.specs.Number.{signed, pattern};
ghost use Rattle.isa.specs.Segment.{bytes_of};
ghost use Rattle.isa.specs.Stage.{WordsOf};

pub fn of_bits(u: u32) -> i32
    ensures { result ≡ signed 32 u }
{
    u.cast_signed()
}

pub fn to_bits(x: i32) -> u32
    ensures { result ≡ pattern 32 x }
{
    x.cast_unsigned()
}

// The number in four bytes.
pub fn word(a: u8, b: u8, c: u8, d: u8) -> u32
    ensures { result ≡ a + 256 * (b + 256 * (c + 256 * d)) }
{
    u32::from_le_bytes([a, b, c, d])
}

// The four words of sixteen bytes, the first byte of each the lowest.
pub fn words(b: [u8; 16]) -> [u32; 4]
    ensures { WordsOf result (bytes_of b) }
{
    [
        word(b[0], b[1], b[2], b[3]),
        word(b[4], b[5], b[6], b[7]),
        word(b[8], b[9], b[10], b[11]),
        word(b[12], b[13], b[14], b[15]),
    ]
}
