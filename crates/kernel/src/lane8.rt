// One lane of 8 bits, worked out exactly in 16.
ghost use Rattle.std.specs.Prelude.{◌≡◌, map, pos, ◌+ℤ◌, ◌*ℤ◌};
ghost use Rattle.integer.specs.Number.{rounded, upper_half, clamp, wrap, signed_by};
ghost use Rattle.integer.specs.Lane.{SumIn};
ghost use Rattle.isa.specs.Stage.{BytesOfLanes};
ghost use Rattle.isa.specs.declared.types.Size.TheVariants.{B};
ghost use Rattle.kernel.specs.Counts.{count_b};
ghost use Rattle.std.proofs.Common.{rules};

use crate::lane::Lane;
use common::bits8::{of_bits, to_bits};
use common::bits16;
use common::product8::product;

// x brought into 8 bits.
fn narrow(x: i16) -> i8
    ensures { result ≡ clamp 8 x }
{
    if x < -128 {
        -128
    } else if 127 < x {
        127
    } else {
        x as i8
    }
}

// x modulo 2^8.
fn cut(x: i16) -> i8
    ensures { result ≡ wrap 8 x }
{
    of_bits((bits16::to_bits(x) % 256) as u8)
}

// x plus or minus y.
fn plus_minus(x: i16, y: i16, minus: bool) -> i16
    requires { SumIn 7 x y }
    ensures { result ≡ x +ℤ signed_by minus y }
{
    if minus { x - y } else { x + y }
}

// The product of a and b, or its negative, doubled and rounded to its upper half. Nothing is clamped.
fn upper(a: i8, b: i8, minus: bool) -> i16
    ensures { result ≡ rounded 8 (pos 0) (signed_by minus (a *ℤ b)) }
{
    plus_minus(64, product(a, b), minus) >> 7
}

// The upper half of the doubled product of a and b. Nothing is clamped.
fn high(a: i8, b: i8) -> i16
    ensures { result ≡ upper_half 8 (a *ℤ b) }
{
    product(a, b) >> 7
}

impl Lane<16> for i8 {
    ghost size = { B };

    ghost value = { λ x. x };

    fn lanes(b: [u8; 16]) -> [i8; 16] {
        let mut r = [0i8; 16];
        for e in 0..16 {
            r[e] = of_bits(b[e]);
        }
        r
    }

    fn bytes(s: [i8; 16]) -> [u8; 16]
        ensures { BytesOfLanes B result (map (λ x. x) s) }
    {
        let mut r = [0u8; 16];
        for e in 0..16 {
            r[e] = to_bits(s[e]);
        }
        r
    }

    fn round(c: i8, a: i8, b: i8, minus: bool) -> i8 {
        narrow((c as i16) + upper(a, b, minus))
    }

    fn mla(c: i8, a: i8, b: i8, minus: bool) -> i8 {
        cut(plus_minus(c as i16, product(a, b), minus))
    }

    fn add(c: i8, b: i8, minus: bool) -> i8 {
        cut(plus_minus(c as i16, b as i16, minus))
    }

    fn sat(c: i8, b: i8, minus: bool) -> i8 {
        narrow(plus_minus(c as i16, b as i16, minus))
    }

    fn doubled_high(a: i8, b: i8) -> i8 {
        narrow(high(a, b))
    }

    ghost count = { count_b };

    ghost fits = { Prim.search rules };
}
