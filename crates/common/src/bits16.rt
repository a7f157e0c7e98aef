// 16 bits and the number that they stand for.
ghost use Rattle.std.specs.Prelude.{◌≡◌, ◌+◌, ◌*◌};
ghost use Rattle.integer.specs.Number.{signed, pattern};

pub fn of_bits(u: u16) -> i16
    ensures { result ≡ signed 16 u }
{
    u.cast_signed()
}

pub fn to_bits(x: i16) -> u16
    ensures { result ≡ pattern 16 x }
{
    x.cast_unsigned()
}

// The number in two bytes.
pub fn word(lo: u8, hi: u8) -> u16
    ensures { result ≡ lo + 256 * hi }
{
    u16::from_le_bytes([lo, hi])
}
