// Products of lanes of 32 bits. `half_product` takes numbers without a sign, so lanes are biased first.
ghost use Rattle.std.specs.Prelude.{◌≡◌, ◌^◌, ◌<◌, pos, ◌+ℤ◌, ◌*ℤ◌};

use crate::bits64::{of_bits, to_bits};
use crate::multiply::half_product;

// a with the bias 2^31, so that it has no sign.
fn biased(a: i32) -> u64
    ensures { (pos result ≡ a +ℤ pos (2 ^ 31)) × (result < 2 ^ 32) }
{
    ((a as i64) + 2147483648) as u64
}

// The exact product: that of a and b biased, less 2^31 times b biased, less 2^31 times a, all modulo 2^64. They are taken off one
// after the other, since the compiler then knows all of it as one product.
pub fn product(a: i32, b: i32) -> i64
    ensures { result ≡ a *ℤ b }
{
    let u = biased(a);
    let v = biased(b);
    let p = std::num::wrapping_sub_u64(half_product(u, v), v << 31);
    of_bits(std::num::wrapping_sub_u64(p, to_bits(a as i64) << 31))
}
