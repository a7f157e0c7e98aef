// 64 bits and the number that they stand for.
ghost use Rattle.std.specs.Prelude.{◌≡◌, ◌+◌, ◌*◌};
ghost use Rattle.integer.specs.Number.{signed, pattern};

pub fn of_bits(u: u64) -> i64
    ensures { result ≡ signed 64 u }
{
    u.cast_signed()
}

pub fn to_bits(x: i64) -> u64
    ensures { result ≡ pattern 64 x }
{
    x.cast_unsigned()
}

// The number in two halves.
pub fn word(lo: u32, hi: u32) -> u64
    ensures { result ≡ lo + 4294967296 * hi }
{
    (lo as u64) + ((hi as u64) << 32)
}
