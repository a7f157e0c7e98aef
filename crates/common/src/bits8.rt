// 8 bits and the number that they stand for.
ghost use Rattle.std.specs.Prelude.{◌≡◌};
ghost use Rattle.integer.specs.Number.{signed, pattern};

pub fn of_bits(u: u8) -> i8
    ensures { result ≡ signed 8 u }
{
    u.cast_signed()
}

pub fn to_bits(x: i8) -> u8
    ensures { result ≡ pattern 8 x }
{
    x.cast_unsigned()
}
