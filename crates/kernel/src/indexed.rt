// The indexed families, each by the same two kinds of rotations as in `vectors`, for the same reason, and by any rotation.
// The index is taken modulo the pairs of a segment.
ghost use Rattle.std.specs.Prelude.{◌≡◌, ◌%◌};
ghost use Rattle.isa.specs.Meaning.{indexed, cmla_of, sqrdcmlah_of};
ghost use Rattle.isa.specs.Register.{bits, pairs};
ghost use Rattle.isa.specs.Segment.{Segment};
ghost use Rattle.isa.specs.Stage.{crossed};

use crate::lane::Lane;
use crate::segment::repeated;
use crate::vectors::multiplied;
use common::rotation::crosses;
use isa::types::Rotation;

// CMLA indexed on one segment, by the rotations that `CROSSED` names.
pub fn cmla_by<L: Lane<K>, const K: usize, const CROSSED: bool>(
    c: [u8; 16],
    n: [u8; 16],
    m: [u8; 16],
    index: usize,
    rot: Rotation,
) -> [u8; 16]
    requires { crossed rot ≡ CROSSED }
    ensures { Segment L.size (indexed L.size (index % pairs L.size)) (cmla_of rot) result c n m }
{
    let pair = repeated(L::lanes(m), index);
    multiplied(c, n, pair, rot, CROSSED, L::mla)
}

// CMLA indexed on one segment, by any rotation.
pub fn cmla<L: Lane<K>, const K: usize>(
    c: [u8; 16],
    n: [u8; 16],
    m: [u8; 16],
    index: usize,
    rot: Rotation,
) -> [u8; 16]
    ensures { Segment L.size (indexed L.size (index % pairs L.size)) (cmla_of rot) result c n m }
{
    if crosses(rot) {
        cmla_by::<L, K, true>(c, n, m, index, rot)
    } else {
        cmla_by::<L, K, false>(c, n, m, index, rot)
    }
}

// SQRDCMLAH indexed on one segment, by the rotations that `CROSSED` names.
pub fn sqrdcmlah_by<L: Lane<K>, const K: usize, const CROSSED: bool>(
    c: [u8; 16],
    n: [u8; 16],
    m: [u8; 16],
    index: usize,
    rot: Rotation,
) -> [u8; 16]
    requires { crossed rot ≡ CROSSED }
    ensures { Segment L.size (indexed L.size (index % pairs L.size)) (sqrdcmlah_of (bits L.size) rot) result c n m }
{
    let pair = repeated(L::lanes(m), index);
    multiplied(c, n, pair, rot, CROSSED, L::round)
}

// SQRDCMLAH indexed on one segment, by any rotation.
pub fn sqrdcmlah<L: Lane<K>, const K: usize>(
    c: [u8; 16],
    n: [u8; 16],
    m: [u8; 16],
    index: usize,
    rot: Rotation,
) -> [u8; 16]
    ensures { Segment L.size (indexed L.size (index % pairs L.size)) (sqrdcmlah_of (bits L.size) rot) result c n m }
{
    if crosses(rot) {
        sqrdcmlah_by::<L, K, true>(c, n, m, index, rot)
    } else {
        sqrdcmlah_by::<L, K, false>(c, n, m, index, rot)
    }
}
