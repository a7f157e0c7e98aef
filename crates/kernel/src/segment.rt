// The stages of a kernel: each lane's sources, then one loop over the lanes.
ghost use Rattle.std.specs.Prelude.{◌≡◌, ◌%◌, ◌*◌, ◌≤◌, map};
ghost use Rattle.integer.specs.Number.{clamps};
ghost use Rattle.integer.specs.Lane.{doubled_high};
ghost use Rattle.isa.specs.Meaning.{any_below};
ghost use Rattle.isa.specs.Register.{bits, pairs};
ghost use Rattle.isa.specs.Stage.{Taken, Multiplied, Added, Paired, Summed, Towards, Clamped, first_place, second_place, index_place, lane};
ghost use Rattle.kernel.specs.Work.{Multiplies, Adds};

use crate::lane::{ByElement, Lane};
use common::rotation::{minus_at, partner};

// Each lane takes the chosen part of its pair.
pub fn doubled<L: Lane<K>, const K: usize>(n: [L; K], odd: bool) -> [L; K]
    ensures { Taken L.size (map L.value result) (map L.value n) (first_place odd) }
{
    let mut r = n;
    for e in 0..K {
        r[e] = if odd { n[e - e % 2 + 1] } else { n[e - e % 2] };
    }
    r
}

// Each lane stays, or takes the other part of its pair.
pub fn swapped<L: Lane<K>, const K: usize>(m: [L; K], odd: bool) -> [L; K]
    ensures { Taken L.size (map L.value result) (map L.value m) (second_place odd) }
{
    let mut r = m;
    for e in 0..K {
        r[e] = if odd { m[partner(e)] } else { m[e] };
    }
    r
}

// Each lane takes its part of the pair at the index.
pub fn repeated<L: Lane<K>, const K: usize>(m: [L; K], index: usize) -> [L; K]
    ensures { Taken L.size (map L.value result) (map L.value m) (index_place (index % pairs L.size)) }
{
    let k = index % (K / 2);
    let mut r = m;
    for e in 0..K {
        r[e] = m[k + k + e % 2];
    }
    r
}

// Each lane is worked out of its addend and its two factors.
pub fn products<L: Lane<K>, const K: usize, F: Fn(L, L, L, bool) -> L>(
    x: [L; K],
    y: [L; K],
    z: [L; K],
    real: bool,
    imaginary: bool,
    work: F,
) -> [L; K]
    requires { F.IsAlwaysCallable work }
    ensures { (f : _) → Multiplies L.value (F.post work) f → Multiplied L.size f (map L.value result) (map L.value x) (map L.value y) (map L.value z) real imaginary }
{
    let mut r = x;
    for e in 0..K {
        r[e] = work(x[e], y[e], z[e], minus_at(real, imaginary, e));
    }
    r
}

// Each lane is worked out of its two summands, in place: each lane of the second source is read before it is stored.
pub fn sums<L: Lane<K>, const K: usize, F: Fn(L, L, bool) -> L>(
    x: [L; K],
    z: [L; K],
    real: bool,
    imaginary: bool,
    work: F,
) -> [L; K]
    requires { F.IsAlwaysCallable work }
    ensures { (f : _) → Adds L.value (F.post work) f → Added L.size f (map L.value result) (map L.value x) (map L.value z) real imaginary }
{
    let mut r = z;
    for e in 0..K {
        r[e] = work(x[e], r[e], minus_at(real, imaginary, e));
    }
    r
}

// Upper halves of doubled products, clamped.
pub fn high_halves<L: Lane<K>, const K: usize>(x: [L; K], z: [L; K]) -> [L; K]
    ensures { Paired L.size (doubled_high (bits L.size)) (map L.value result) (map L.value x) (map L.value z) }
{
    let mut r = x;
    for e in 0..K {
        r[e] = L::doubled_high(x[e], z[e]);
    }
    r
}

// The first `count` lanes by element b, rounded and not yet clamped; the others are 0. Past the range, the sign of x's lane tells the end.
pub fn rounded_sums<L: ByElement<K>, const K: usize>(
    x: [L; K],
    y: [L; K],
    b: L,
    count: usize,
    minus: bool,
) -> [L::Sum; K]
    requires { count ≤ K }
    ensures { Summed L.size count minus (map L.sum result) (map L.value x) (map L.value y) (L.value b) × Towards L.size (map L.sum result) (map L.value x) }
{
    let mut r = [L::none(); K];
    for e in 0..count {
        r[e] = L::rounding(x[e], y[e], b, minus);
    }
    r
}

// The lanes of s, clamped to the ends that the signs of x's lanes tell. These are there before the products are.
pub fn narrowed<L: ByElement<K>, const K: usize>(s: [L::Sum; K], x: [L; K]) -> [L; K]
    requires { Towards L.size (map L.sum s) (map L.value x) }
    ensures { Clamped L.size (map L.value result) (map L.sum s) }
{
    let mut r = x;
    for e in 0..K {
        r[e] = L::narrow(s[e], x[e]);
    }
    r
}

// Whether some lane has no place in N bits.
pub fn any_overflow<L: ByElement<K>, const K: usize>(s: [L::Sum; K]) -> bool
    ensures { result ≡ any_below K (λ e. clamps (bits L.size) (lane (map L.sum s) e)) }
{
    let mut any = false;
    for e in 0..K {
        any = if L::overflows(s[e]) { true } else { any };
    }
    any
}
