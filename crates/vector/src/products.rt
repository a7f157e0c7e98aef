// CMLA and SQRDCMLAH on whole registers.
ghost use Rattle.std.specs.Prelude.{◌≡◌, true};
ghost use Rattle.isa.specs.Sources.{mul_rule};
ghost use Rattle.isa.specs.Stage.{crossed};
ghost use Rattle.regfile.specs.Sweep.{Lying, Swept};
ghost use Rattle.vector.specs.Works.{Made};

use crate::sweep::sweep;
use common::rotation::crosses;
use isa::types::Rotation;
use kernel::lane::Lane;
use kernel::vectors::{cmla_by, sqrdcmlah_by};
use regfile::layout::Operands;

// By 90 or 270 with CROSSED, else by 0 or 180.
fn products_by<L: Lane<K>, const K: usize, const ROUNDING: bool, const CROSSED: bool>(
    l: usize,
    file: &mut [u8],
    at: Operands,
    rot: Rotation,
)
    requires lying { Lying l file.old at.dest at.first at.second }
    requires rot_value { crossed rot ≡ CROSSED }
    ensures { Swept l (mul_rule ROUNDING L.size rot) file.old at.dest at.first at.second file.new }
{
    sweep(
        l,
        file,
        at,
        |c, n, m|
            requires { crossed rot ≡ CROSSED }
            ensures { Made (mul_rule ROUNDING L.size rot) c n m result }
        {
            if ROUNDING {
                sqrdcmlah_by::<L, K, CROSSED>(c, n, m, rot)
            } else {
                cmla_by::<L, K, CROSSED>(c, n, m, rot)
            }
        },
    )
}

// CMLA, or SQRDCMLAH with ROUNDING.
pub fn products<L: Lane<K>, const K: usize, const ROUNDING: bool>(
    l: usize,
    file: &mut [u8],
    at: Operands,
    rot: Rotation,
)
    requires { Lying l file.old at.dest at.first at.second }
    ensures { Swept l (mul_rule ROUNDING L.size rot) file.old at.dest at.first at.second file.new }
{
    if crosses(rot) {
        products_by::<L, K, ROUNDING, true>(l, file, at, rot)
    } else {
        products_by::<L, K, ROUNDING, false>(l, file, at, rot)
    }
}
