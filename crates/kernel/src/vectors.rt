// The families by vectors. CADD and SQCADD have only the rotations by 90 and 270 degrees. CMLA and SQRDCMLAH have `CROSSED`, which says whether
// the rotation is one of these or by 0 or 180: so the rotation is chosen once, outside the loops over lanes and over registers, and the compiler
// sees a constant in them. A third form of each takes any rotation.
// Each family is a function of its own, of one call with its lane's operation, since its contract names its rule.
// Inner: lent to the crates of loops over registers, which have looked at the rotation.
ghost use Rattle.std.specs.Prelude.{◌≡◌, true, map, ◌+ℤ◌};
ghost use Rattle.integer.specs.Lane.{doubled_high};
ghost use Rattle.isa.specs.Meaning.{own, each, each₂, turned, product, cadd_of, sqcadd_of, cmla_of, sqrdcmlah_of};
ghost use Rattle.isa.specs.Register.{bits};
ghost use Rattle.isa.specs.Segment.{Segment, LaneWise, bytes_of};
ghost use Rattle.isa.specs.Stage.{crossed};
ghost use Rattle.kernel.specs.Work.{Multiplies, Adds, SameBits, Chosen};

use crate::lane::Lane;
use crate::segment::{doubled, high_halves, products, sums, swapped};
use common::rotation::{crosses, minus_imaginary, minus_real};
use isa::types::Rotation;

// A sum on one segment, by 90 or 270 degrees.
fn added<L: Lane<K>, const K: usize, F: Fn(L, L, bool) -> L>(
    c: [u8; 16],
    m: [u8; 16],
    rot: Rotation,
    work: F,
) -> [u8; 16]
    requires rot_value { crossed rot ≡ true }
    requires callable { F.IsAlwaysCallable work }
    ensures { (k g : _) → Adds L.value (F.post work) g → SameBits (bits L.size) g (λ a b. k (a +ℤ b)) → Segment L.size own (λ a _ b. each k (turned rot a b)) result c c m }
{
    let x = L::lanes(c);
    let z = swapped(L::lanes(m), true);
    L::bytes(sums(x, z, minus_real(rot), minus_imaginary(rot), work))
}

// CADD on one segment, by 90 or 270 degrees.
pub fn cadd<L: Lane<K>, const K: usize>(c: [u8; 16], m: [u8; 16], rot: Rotation) -> [u8; 16]
    requires { crossed rot ≡ true }
    ensures { Segment L.size own (cadd_of rot) result c c m }
{
    added(c, m, rot, L::add)
}

// SQCADD on one segment, by 90 or 270 degrees.
pub fn sqcadd<L: Lane<K>, const K: usize>(c: [u8; 16], m: [u8; 16], rot: Rotation) -> [u8; 16]
    requires { crossed rot ≡ true }
    ensures { Segment L.size own (sqcadd_of (bits L.size) rot) result c c m }
{
    added(c, m, rot, L::sat)
}

// A product form on one segment. m has the lanes of the pairs of the second source; `odd` is the rotation's, and a constant at each call.
#[inline(always)]
pub(crate) fn multiplied<L: Lane<K>, const K: usize, F: Fn(L, L, L, bool) -> L>(
    c: [u8; 16],
    n: [u8; 16],
    m: [L; K],
    rot: Rotation,
    odd: bool,
    work: F,
) -> [u8; 16]
    requires rot_value { crossed rot ≡ odd }
    requires callable { F.IsAlwaysCallable work }
    ensures { (f g choose s : _) → Multiplies L.value (F.post work) g → SameBits (bits L.size) g f → Chosen L.size choose (map L.value m) (bytes_of s) → Segment L.size choose (λ c n m. each₂ f c (product rot n m)) result c n s }
{
    let x = L::lanes(c);
    let y = doubled(L::lanes(n), odd);
    let z = swapped(m, odd);
    L::bytes(products(x, y, z, minus_real(rot), minus_imaginary(rot), work))
}

// CMLA on one segment, by the rotations that `CROSSED` names.
pub fn cmla_by<L: Lane<K>, const K: usize, const CROSSED: bool>(
    c: [u8; 16],
    n: [u8; 16],
    m: [u8; 16],
    rot: Rotation,
) -> [u8; 16]
    requires { crossed rot ≡ CROSSED }
    ensures { Segment L.size own (cmla_of rot) result c n m }
{
    multiplied(c, n, L::lanes(m), rot, CROSSED, L::mla)
}

// CMLA on one segment, by any rotation.
pub fn cmla<L: Lane<K>, const K: usize>(
    c: [u8; 16],
    n: [u8; 16],
    m: [u8; 16],
    rot: Rotation,
) -> [u8; 16]
    ensures { Segment L.size own (cmla_of rot) result c n m }
{
    if crosses(rot) {
        cmla_by::<L, K, true>(c, n, m, rot)
    } else {
        cmla_by::<L, K, false>(c, n, m, rot)
    }
}

// SQRDCMLAH on one segment, by the rotations that `CROSSED` names.
pub fn sqrdcmlah_by<L: Lane<K>, const K: usize, const CROSSED: bool>(
    c: [u8; 16],
    n: [u8; 16],
    m: [u8; 16],
    rot: Rotation,
) -> [u8; 16]
    requires { crossed rot ≡ CROSSED }
    ensures { Segment L.size own (sqrdcmlah_of (bits L.size) rot) result c n m }
{
    multiplied(c, n, L::lanes(m), rot, CROSSED, L::round)
}

// SQRDCMLAH on one segment, by any rotation.
pub fn sqrdcmlah<L: Lane<K>, const K: usize>(
    c: [u8; 16],
    n: [u8; 16],
    m: [u8; 16],
    rot: Rotation,
) -> [u8; 16]
    ensures { Segment L.size own (sqrdcmlah_of (bits L.size) rot) result c n m }
{
    if crosses(rot) {
        sqrdcmlah_by::<L, K, true>(c, n, m, rot)
    } else {
        sqrdcmlah_by::<L, K, false>(c, n, m, rot)
    }
}

// SQDMULH on one segment, lane by lane.
pub fn sqdmulh<L: Lane<K>, const K: usize>(c: [u8; 16], m: [u8; 16]) -> [u8; 16]
    ensures { LaneWise L.size (doubled_high (bits L.size)) result c m }
{
    L::bytes(high_halves(L::lanes(c), L::lanes(m)))
}
