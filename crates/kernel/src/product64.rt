// Products of lanes, two words put together from products of halves.
ghost use Rattle.std.specs.Prelude.{◌≡◌, ◌+◌, ◌*◌, ◌/◌, ◌%◌, ◌^◌, ◌<◌, ◌≤◌, pos, ◌*ℤ◌, neg_ℤ, if◌then◌else◌, unsigned_abs};
ghost use Rattle.integer.specs.Number.{signed_by};
ghost use Rattle.kernel.specs.Wide.{wide_of};

use common::multiply::half_product;

// A number of 128 bits: hi times 2^64, plus lo.
#[derive(Clone, Copy)]
pub struct Wide {
    pub hi: u64,
    pub lo: u64,
}

// The same, signed.
#[derive(Clone, Copy)]
pub struct SignedWide {
    pub hi: i64,
    pub lo: u64,
}

// The upper word of a product of two words, column by column in base 2^32. The lower word is another function: each is
// one instruction for the compiler, and the two made together were four products.
fn high_word(u: u64, v: u64) -> u64
    ensures { result ≡ u * v / 2 ^ 64 }
{
    let u1 = u / 4294967296;
    let u0 = u % 4294967296;
    let v1 = v / 4294967296;
    let v0 = v % 4294967296;
    let w = half_product(u0, v0);
    let x = half_product(u1, v0);
    let y = half_product(u0, v1);
    let z = half_product(u1, v1);
    let t = x + w / 4294967296;
    let s = y + t % 4294967296;
    z + t / 4294967296 + s / 4294967296
}

// The lower word: the column of z does not reach it.
fn low_word(u: u64, v: u64) -> u64
    ensures { result ≡ u * v % 2 ^ 64 }
{
    let u1 = u / 4294967296;
    let u0 = u % 4294967296;
    let v1 = v / 4294967296;
    let v0 = v % 4294967296;
    let w = half_product(u0, v0);
    let x = half_product(u1, v0);
    let y = half_product(u0, v1);
    let t = x + w / 4294967296;
    let s = y + t % 4294967296;
    ((s % 4294967296) << 32) + w % 4294967296
}

// The whole product of two words.
pub fn wide_product(u: u64, v: u64) -> Wide
    ensures { result.hi * 2 ^ 64 + result.lo ≡ u * v }
{
    Wide {
        hi: high_word(u, v),
        lo: low_word(u, v),
    }
}

// The size of a number, without its sign.
fn magnitude(a: i64) -> u64
    ensures { result ≡ unsigned_abs a }
{
    if a < 0 {
        ((-1 - a) as u64) + 1
    } else {
        a as u64
    }
}

// One of two numbers, chosen without a branch.
fn choose_long(t: bool, a: i64, b: i64) -> i64
    ensures { result ≡ (if t then a else b) }
{
    if t { a } else { b }
}

fn choose_word(t: bool, a: u64, b: u64) -> u64
    ensures { result ≡ (if t then a else b) }
{
    if t { a } else { b }
}

// The negative of hi and lo.
fn negated(hi: u64, lo: u64) -> SignedWide
    requires { hi ≤ 2 ^ 62 }
    ensures { wide_of result.hi result.lo ≡ neg_ℤ (pos (hi * 2 ^ 64 + lo)) }
{
    let h = hi as i64;
    if lo == 0 {
        SignedWide { hi: 0 - h, lo: 0 }
    } else {
        SignedWide {
            hi: 0 - h - 1,
            lo: 18446744073709551615 - lo + 1,
        }
    }
}

// hi and lo, or their negative.
fn with_sign(hi: u64, lo: u64, negative: bool) -> SignedWide
    requires { hi ≤ 2 ^ 62 }
    ensures { wide_of result.hi result.lo ≡ signed_by negative (pos (hi * 2 ^ 64 + lo)) }
{
    let n = negated(hi, lo);
    SignedWide {
        hi: choose_long(negative, n.hi, hi as i64),
        lo: choose_word(negative, n.lo, lo),
    }
}

// The exact product, or its negative.
pub fn product(a: i64, b: i64, minus: bool) -> SignedWide
    ensures { wide_of result.hi result.lo ≡ signed_by minus (a *ℤ b) }
{
    let m = wide_product(magnitude(a), magnitude(b));
    with_sign(m.hi, m.lo, (a < 0) != ((b < 0) != minus))
}
