// CMLA and SQRDCMLAH indexed on whole registers. The index is taken modulo the pairs of a segment.
ghost use Rattle.std.specs.Prelude.{◌≡◌, ◌%◌};
ghost use Rattle.isa.specs.Register.{pairs};
ghost use Rattle.isa.specs.Sources.{indexed_rule};
ghost use Rattle.isa.specs.Stage.{crossed};
ghost use Rattle.regfile.specs.Sweep.{Lying, Swept};
ghost use Rattle.vector.specs.Works.{Made};

use crate::sweep::sweep;
use common::rotation::crosses;
use isa::types::Rotation;
use kernel::indexed::{cmla_by, sqrdcmlah_by};
use kernel::lane::Lane;
use regfile::layout::Operands;

// By 90 or 270 with CROSSED, else by 0 or 180.
fn indexed_by<L: Lane<K>, const K: usize, const ROUNDING: bool, const CROSSED: bool>(
    l: usize,
    file: &mut [u8],
    at: Operands,
    index: usize,
    rot: Rotation,
)
    requires lying { Lying l file.old at.dest at.first at.second }
    requires rot_value { crossed rot ≡ CROSSED }
    ensures { Swept l (indexed_rule ROUNDING L.size (index % pairs L.size) rot) file.old at.dest at.first at.second file.new }
{
    sweep(
        l,
        file,
        at,
        |c, n, m|
            requires { crossed rot ≡ CROSSED }
            ensures { Made (indexed_rule ROUNDING L.size (index % pairs L.size) rot) c n m result }
        {
            if ROUNDING {
                sqrdcmlah_by::<L, K, CROSSED>(c, n, m, index, rot)
            } else {
                cmla_by::<L, K, CROSSED>(c, n, m, index, rot)
            }
        },
    )
}

// CMLA, or SQRDCMLAH with ROUNDING.
pub fn indexed<L: Lane<K>, const K: usize, const ROUNDING: bool>(
    l: usize,
    file: &mut [u8],
    at: Operands,
    index: usize,
    rot: Rotation,
)
    requires { Lying l file.old at.dest at.first at.second }
    ensures { Swept l (indexed_rule ROUNDING L.size (index % pairs L.size) rot) file.old at.dest at.first at.second file.new }
{
    if crosses(rot) {
        indexed_by::<L, K, ROUNDING, true>(l, file, at, index, rot)
    } else {
        indexed_by::<L, K, ROUNDING, false>(l, file, at, index, rot)
    }
}
