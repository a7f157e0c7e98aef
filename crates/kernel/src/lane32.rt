// One lane of 32 bits, worked out exactly in 64.
ghost use Rattle.std.specs.Prelude.{◌≡◌, map, pos, ◌+ℤ◌, ◌*ℤ◌};
ghost use Rattle.integer.specs.Number.{rounded, upper_half, clamp, clamps, wrap, signed_by};
ghost use Rattle.integer.specs.Lane.{SumIn, Toward};
ghost use Rattle.isa.specs.Stage.{BytesOfLanes};
ghost use Rattle.isa.specs.declared.types.Size.TheVariants.{S};
ghost use Rattle.kernel.specs.Counts.{count_s};
ghost use Rattle.std.proofs.Common.{rules};

use crate::lane::{ByElement, Lane};
use common::bits32::{of_bits, to_bits, word};
use common::bits64;
use common::product32::product;

// Whether x has no place in 32 bits.
fn past(x: i64) -> bool
    ensures { result ≡ clamps 32 x }
{
    if x < -2147483648 {
        true
    } else {
        2147483647 < x
    }
}

// x brought into 32 bits, to the end that the sign of `toward` tells. Callers pass a number that they work out anyway,
// and the compiler makes no branch of this clamp, which data would mispredict.
fn clamp_toward(x: i64, toward: i64) -> i32
    requires { Toward 32 x toward }
    ensures { result ≡ clamp 32 x }
{
    let end = if toward < 0 { -2147483648 } else { 2147483647 };
    if past(x) { end } else { x as i32 }
}

// x modulo 2^32.
fn cut(x: i64) -> i32
    ensures { result ≡ wrap 32 x }
{
    of_bits((bits64::to_bits(x) % 4294967296) as u32)
}

// x plus or minus y.
fn plus_minus(x: i64, y: i64, minus: bool) -> i64
    requires { SumIn 31 x y }
    ensures { result ≡ x +ℤ signed_by minus y }
{
    if minus { x - y } else { x + y }
}

// The product of a and b, or its negative, doubled and rounded to its upper half. Nothing is clamped.
fn upper(a: i32, b: i32, minus: bool) -> i64
    ensures { result ≡ rounded 32 (pos 0) (signed_by minus (a *ℤ b)) }
{
    plus_minus(1073741824, product(a, b), minus) >> 31
}

// The upper half of the doubled product of a and b. Nothing is clamped.
fn high(a: i32, b: i32) -> i64
    ensures { result ≡ upper_half 32 (a *ℤ b) }
{
    product(a, b) >> 31
}

impl Lane<4> for i32 {
    ghost size = { S };

    ghost value = { λ x. x };

    fn lanes(b: [u8; 16]) -> [i32; 4] {
        let mut r = [0i32; 4];
        for e in 0..4 {
            let k = e << 2;
            r[e] = of_bits(word(b[k], b[k + 1], b[k + 2], b[k + 3]));
        }
        r
    }

    fn bytes(s: [i32; 4]) -> [u8; 16]
        ensures { BytesOfLanes S result (map (λ x. x) s) }
    {
        let mut r = [0u8; 16];
        for e in 0..4 {
            let b = to_bits(s[e]).to_le_bytes();
            let k = e << 2;
            r[k] = b[0];
            r[k + 1] = b[1];
            r[k + 2] = b[2];
            r[k + 3] = b[3];
        }
        r
    }

    fn round(c: i32, a: i32, b: i32, minus: bool) -> i32 {
        let t = upper(a, b, minus);
        clamp_toward((c as i64) + t, t)
    }

    fn mla(c: i32, a: i32, b: i32, minus: bool) -> i32 {
        cut(plus_minus(c as i64, product(a, b), minus))
    }

    fn add(c: i32, b: i32, minus: bool) -> i32 {
        cut(plus_minus(c as i64, b as i64, minus))
    }

    fn sat(c: i32, b: i32, minus: bool) -> i32 {
        clamp_toward(plus_minus(c as i64, b as i64, minus), c as i64)
    }

    // Only the lowest by the lowest is past the range, by one, and only then are the low bits those of the lowest.
    // A test of them takes fewer instructions than a clamp in 64 bits.
    fn doubled_high(a: i32, b: i32) -> i32 {
        let r = cut(high(a, b));
        if r < -2147483647 { 2147483647 } else { r }
    }

    ghost count = { count_s };

    ghost fits = { Prim.search rules };
}

impl ByElement<4> for i32 {
    type Sum = i64;

    ghost sum = { λ x. x };

    fn none() -> i64 {
        0
    }

    fn rounding(c: i32, a: i32, b: i32, minus: bool) -> i64 {
        (c as i64) + upper(a, b, minus)
    }

    fn narrow(s: i64, toward: i32) -> i32 {
        clamp_toward(s, toward as i64)
    }

    fn overflows(s: i64) -> bool {
        past(s)
    }

    fn element(file: &[u8], m: usize, index: usize) -> i32 {
        let at = m + (index << 2);
        of_bits(word(file[at], file[at + 1], file[at + 2], file[at + 3]))
    }

    ghost sums_fit = { Prim.search rules };
}
