// One lane of 16 bits, worked out exactly in 32.
ghost use Rattle.std.specs.Prelude.{◌≡◌, map, pos, ◌+ℤ◌, ◌*ℤ◌};
ghost use Rattle.integer.specs.Number.{rounded, upper_half, clamp, wrap, signed_by};
ghost use Rattle.integer.specs.Lane.{SumIn};
ghost use Rattle.isa.specs.Stage.{BytesOfLanes};
ghost use Rattle.isa.specs.declared.types.Size.TheVariants.{H};
ghost use Rattle.kernel.specs.Counts.{count_h};
ghost use Rattle.std.proofs.Common.{rules};

use crate::lane::{ByElement, Lane};
use common::bits16::{of_bits, to_bits, word};
use common::bits32;
use common::product16::product;

// x brought into 16 bits.
fn narrow(x: i32) -> i16
    ensures { result ≡ clamp 16 x }
{
    if x < -32768 {
        -32768
    } else if 32767 < x {
        32767
    } else {
        x as i16
    }
}

// x modulo 2^16.
fn cut(x: i32) -> i16
    ensures { result ≡ wrap 16 x }
{
    of_bits((bits32::to_bits(x) % 65536) as u16)
}

// x plus or minus y.
fn plus_minus(x: i32, y: i32, minus: bool) -> i32
    requires { SumIn 15 x y }
    ensures { result ≡ x +ℤ signed_by minus y }
{
    if minus { x - y } else { x + y }
}

// The product of a and b, or its negative, doubled and rounded to its upper half. Nothing is clamped.
fn upper(a: i16, b: i16, minus: bool) -> i32
    ensures { result ≡ rounded 16 (pos 0) (signed_by minus (a *ℤ b)) }
{
    plus_minus(16384, product(a, b), minus) >> 15
}

// The upper half of the doubled product of a and b. Nothing is clamped.
fn high(a: i16, b: i16) -> i32
    ensures { result ≡ upper_half 16 (a *ℤ b) }
{
    product(a, b) >> 15
}

impl Lane<8> for i16 {
    ghost size = { H };

    ghost value = { λ x. x };

    fn lanes(b: [u8; 16]) -> [i16; 8] {
        let mut r = [0i16; 8];
        for e in 0..8 {
            r[e] = of_bits(word(b[e + e], b[e + e + 1]));
        }
        r
    }

    fn bytes(s: [i16; 8]) -> [u8; 16]
        ensures { BytesOfLanes H result (map (λ x. x) s) }
    {
        let mut r = [0u8; 16];
        for e in 0..8 {
            let b = to_bits(s[e]).to_le_bytes();
            r[e + e] = b[0];
            r[e + e + 1] = b[1];
        }
        r
    }

    fn round(c: i16, a: i16, b: i16, minus: bool) -> i16 {
        narrow(Self::rounding(c, a, b, minus))
    }

    fn mla(c: i16, a: i16, b: i16, minus: bool) -> i16 {
        cut(plus_minus(c as i32, product(a, b), minus))
    }

    fn add(c: i16, b: i16, minus: bool) -> i16 {
        cut(plus_minus(c as i32, b as i32, minus))
    }

    fn sat(c: i16, b: i16, minus: bool) -> i16 {
        narrow(plus_minus(c as i32, b as i32, minus))
    }

    // Only the lowest by the lowest is past the range, by one, and only then are the low bits those of the lowest.
    // A test of them is one of vectors of 16 bits; of a clamp in 32 bits the compiler makes no vectors.
    fn doubled_high(a: i16, b: i16) -> i16 {
        let r = cut(high(a, b));
        if r < -32767 { 32767 } else { r }
    }

    ghost count = { count_h };

    ghost fits = { Prim.search rules };
}

impl ByElement<8> for i16 {
    type Sum = i32;

    ghost sum = { λ x. x };

    fn none() -> i32 {
        0
    }

    fn rounding(c: i16, a: i16, b: i16, minus: bool) -> i32 {
        (c as i32) + upper(a, b, minus)
    }

    // The sign of `toward` would tell the end too, which two tests tell as soon.
    fn narrow(s: i32, _toward: i16) -> i16 {
        narrow(s)
    }

    fn overflows(s: i32) -> bool {
        if s < -32768 { true } else { 32767 < s }
    }

    fn element(file: &[u8], m: usize, index: usize) -> i16 {
        let at = m + (index << 1);
        of_bits(word(file[at], file[at + 1]))
    }

    ghost sums_fit = { Prim.search rules };
}
