// Products of lanes of 16 bits. `multiply` takes numbers without a sign, so lanes are biased first.
ghost use Rattle.std.specs.Prelude.{◌≡◌, ◌^◌, ◌<◌, pos, ◌+ℤ◌, ◌*ℤ◌};

use crate::bits32::{of_bits, to_bits};
use crate::multiply::multiply;

// a with the bias 2^15, so that it has no sign.
fn biased(a: i16) -> u16
    ensures { (pos result ≡ a +ℤ pos (2 ^ 15)) × (result < 2 ^ 16) }
{
    ((a as i32) + 32768) as u16
}

// The exact product: that of a and b biased, less 2^15 times b biased, less 2^15 times a, all modulo 2^32. They are taken off one
// after the other, since the compiler then knows all of it as one product.
pub fn product(a: i16, b: i16) -> i32
    ensures { result ≡ a *ℤ b }
{
    let u = biased(a);
    let v = biased(b);
    let p = std::num::wrapping_sub_u32(multiply(u, v), (v as u32) << 15);
    of_bits(std::num::wrapping_sub_u32(p, to_bits(a as i32) << 15))
}
