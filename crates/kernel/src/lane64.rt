// One lane of 64 bits. A sum is kept as twice a word plus a bit, so that it is exact before the clamp.
ghost use Rattle.std.specs.Prelude.{◌≡◌, map, ◌*◌, ◌/◌, ◌%◌, ◌^◌, ◌<◌, pos, ◌+ℤ◌, ◌*ℤ◌};
ghost use Rattle.integer.specs.Number.{mod_z, clamp, upper_half, pattern, signed_by};
ghost use Rattle.isa.specs.Stage.{BytesOfLanes};
ghost use Rattle.isa.specs.declared.types.Size.TheVariants.{D};
ghost use Rattle.kernel.specs.Counts.{count_d};
ghost use Rattle.std.proofs.Common.{rules};
ghost use Rattle.kernel.specs.Wide.{wide_of, WideIn, NarrowIn, sum_high};

use crate::lane::Lane;
use crate::product64::{product, wide_product};
use common::bits32;
use common::bits64::{of_bits, to_bits, word};

// A number as twice high plus low, which is 0 or 1.
#[derive(Clone, Copy)]
struct Halves {
    high: i64,
    low: u64,
}

// c modulo 2.
fn low_bit(c: i64) -> u64
    ensures { (result ≡ mod_z c 2) × (result < 2) }
{
    let h = c >> 1;
    (c - h - h) as u64
}

// c times 2^64 plus twice the number of two words, plus 2^63, divided by 2^64 rounding down.
fn rounding(c: i64, hi: i64, lo: u64) -> Halves
    requires { WideIn hi lo }
    ensures { (result.low < 2) × (result.high *ℤ pos 2 +ℤ pos result.low ≡ sum_high c (wide_of hi lo)) }
{
    let t = low_bit(c) + (lo / 4611686018427387904 + 1) / 2;
    Halves {
        high: (c >> 1) + hi + ((t / 2) as i64),
        low: t % 2,
    }
}

// Twice high plus low, brought into 64 bits. The end is that of hi's sign, and not of a test of its own: so the compiler
// makes no branch of the clamp, which data would mispredict.
fn narrow(high: i64, low: u64, hi: i64) -> i64
    requires { NarrowIn high low hi }
    ensures { result ≡ clamp 64 (high *ℤ pos 2 +ℤ pos low) }
{
    let end = if hi < 0 {
        -9223372036854775808i64
    } else {
        9223372036854775807i64
    };
    let out = if high < -4611686018427387904 {
        true
    } else {
        4611686018427387903 < high
    };
    if out { end } else { high + high + (low as i64) }
}

// a with the bias 2^63, so that it has no sign.
fn biased(a: i64) -> u64
    ensures { pos result ≡ a +ℤ pos (2 ^ 63) }
{
    std::num::wrapping_add_u64(to_bits(a), 9223372036854775808)
}

// The product of two words, divided by 2^63, modulo 2^64.
fn doubled_word(u: u64, v: u64) -> u64
    ensures { result ≡ u * v / 2 ^ 63 % 2 ^ 64 }
{
    let p = wide_product(u, v);
    std::num::wrapping_add_u64(p.hi << 1, p.lo / 9223372036854775808)
}

// The bits of the upper half of the doubled product of a and b: the upper half of their product biased, less both, and the bias, modulo 2^64.
// `product`, which puts the sign on a product of sizes, takes twice as many instructions.
fn high_bits(a: i64, b: i64) -> u64
    ensures { result ≡ pattern 64 (upper_half 64 (a *ℤ b)) }
{
    let u = biased(a);
    let v = biased(b);
    let t = std::num::wrapping_sub_u64(doubled_word(u, v), u);
    std::num::wrapping_add_u64(std::num::wrapping_sub_u64(t, v), 9223372036854775808)
}

impl Lane<2> for i64 {
    ghost size = { D };

    ghost value = { λ x. x };

    fn lanes(b: [u8; 16]) -> [i64; 2] {
        let h = bits32::words(b);
        [of_bits(word(h[0], h[1])), of_bits(word(h[2], h[3]))]
    }

    fn bytes(s: [i64; 2]) -> [u8; 16]
        ensures { BytesOfLanes D result (map (λ x. x) s) }
    {
        let mut r = [0u8; 16];
        for e in 0..2 {
            let b = to_bits(s[e]).to_le_bytes();
            let k = e << 3;
            r[k] = b[0];
            r[k + 1] = b[1];
            r[k + 2] = b[2];
            r[k + 3] = b[3];
            r[k + 4] = b[4];
            r[k + 5] = b[5];
            r[k + 6] = b[6];
            r[k + 7] = b[7];
        }
        r
    }

    fn round(c: i64, a: i64, b: i64, minus: bool) -> i64 {
        let p = product(a, b, minus);
        let h = rounding(c, p.hi, p.lo);
        narrow(h.high, h.low, p.hi)
    }

    fn mla(c: i64, a: i64, b: i64, minus: bool) -> i64 {
        let m = wide_product(to_bits(a), to_bits(b));
        Self::add(c, of_bits(m.lo), minus)
    }

    fn add(c: i64, b: i64, minus: bool) -> i64 {
        let x = to_bits(c);
        let y = to_bits(b);
        if minus {
            of_bits(std::num::wrapping_sub_u64(x, y))
        } else {
            of_bits(std::num::wrapping_add_u64(x, y))
        }
    }

    // Where both summands have one sign and the wrapped sum the other, it is the end.
    fn sat(c: i64, b: i64, minus: bool) -> i64 {
        let s = Self::add(c, b, minus);
        let end = if c < 0 {
            -9223372036854775808i64
        } else {
            9223372036854775807i64
        };
        let same = (c < 0) == ((b < 0) != minus);
        let turned = (s < 0) != (c < 0);
        if same & turned { end } else { s }
    }

    // Only the lowest by the lowest is past the range, by one, and only then are the bits those of the lowest.
    fn doubled_high(a: i64, b: i64) -> i64 {
        let r = of_bits(high_bits(a, b));
        if r < -9223372036854775807 {
            9223372036854775807
        } else {
            r
        }
    }

    ghost count = { count_d };

    ghost fits = { Prim.search rules };
}
