// Products of lanes of 8 bits: those of 16 bits. Either is one multiplication.
ghost use Rattle.std.specs.Prelude.{◌≡◌, ◌*ℤ◌};

use crate::product16;

// The exact product.
pub fn product(a: i8, b: i8) -> i16
    ensures { result ≡ a *ℤ b }
{
    product16::product(a as i16, b as i16) as i16
}
