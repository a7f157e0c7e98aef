// The loop over the segments of three registers. What is done at a segment is the caller's.
ghost use Rattle.isa.specs.Sources.{Rule};
ghost use Rattle.regfile.specs.Sweep.{Lying, Swept};
ghost use Rattle.vector.specs.Works.{Works};

use regfile::layout::Operands;
use regfile::segment::{read16, write16};

// Each segment of the destination becomes what `work` makes of it and of those of the sources. All three are read before it is stored, so registers
// may coincide.
pub fn sweep<F: Fn([u8; 16], [u8; 16], [u8; 16]) -> [u8; 16]>(
    l: usize,
    file: &mut [u8],
    at: Operands,
    work: F,
)
    requires lying { Lying l file.old at.dest at.first at.second }
    requires callable { F.IsAlwaysCallable work }
    ensures { (rule : Rule) → Works rule (F.post work) → Swept l rule file.old at.dest at.first at.second file.new }
{
    for k in 0..l >> 7 {
        let q = k << 4;
        let c = read16(file, at.dest + q);
        let n = read16(file, at.first + q);
        let m = read16(file, at.second + q);
        write16(file, at.dest + q, work(c, n, m));
    }
}
