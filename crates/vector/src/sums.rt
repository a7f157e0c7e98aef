// CADD and SQCADD on whole registers.
ghost use Rattle.std.specs.Prelude.{◌≡◌, true};
ghost use Rattle.isa.specs.Sources.{add_rule};
ghost use Rattle.isa.specs.Segment.{bytes_of};
ghost use Rattle.isa.specs.Stage.{crossed};
ghost use Rattle.regfile.specs.Sweep.{Lying, Swept};
ghost use Rattle.vector.specs.Works.{Made};

use crate::sweep::sweep;
use isa::types::Rotation;
use kernel::lane::Lane;
use kernel::vectors::{cadd, sqcadd};
use regfile::layout::Operands;

// CADD by 90 or 270, or SQCADD with SATURATING.
pub fn sums<L: Lane<K>, const K: usize, const SATURATING: bool>(
    l: usize,
    file: &mut [u8],
    at: Operands,
    rot: Rotation,
)
    requires lying { Lying l file.old at.dest at.first at.second }
    requires rot_value { crossed rot ≡ true }
    ensures { Swept l (add_rule SATURATING L.size rot) file.old at.dest at.first at.second file.new }
{
    sweep(
        l,
        file,
        at,
        |c, n, m|
            requires { crossed rot ≡ true }
            ensures { Made (add_rule SATURATING L.size rot) c n m result }
        {
            if SATURATING {
                sqcadd::<L, K>(c, m, rot)
            } else {
                cadd::<L, K>(c, m, rot)
            }
        },
    )
}
