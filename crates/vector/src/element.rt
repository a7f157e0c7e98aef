// SQRDMLAH and SQRDMLSH by element, on the first segment.
ghost use Rattle.std.specs.Prelude.{◌<◌, length};
ghost use Rattle.isa.specs.Meaning.{lane_bytes, lane_clamps};
ghost use Rattle.regfile.specs.Sweep.{Within, Touched};

use isa::types::Form;
use kernel::element::by_element;
use kernel::lane::ByElement;
use regfile::layout::Operands;
use regfile::segment::{read16, write16};

// The lanes of one form. Of the second source only the element's own bytes are read: a processor waits where a segment is read of which parts were
// just stored. Put in where it is called, each form has its number of lanes as a constant.
#[inline(always)]
fn touch<L: ByElement<K>, const K: usize>(
    file: &mut [u8],
    at: Operands,
    index: usize,
    form: Form,
    minus: bool,
) -> bool
    requires within { Within (length file.old) at.dest at.first at.second }
    requires index_bound { index < K }
    ensures { Touched 16 (lane_bytes form L.size index minus) (lane_clamps form L.size index minus) file.old at.dest at.first at.second file.new result }
{
    let c = read16(file, at.dest);
    let n = read16(file, at.first);
    let b = L::element(file, at.second, index);
    let s = by_element::<L, K>(form, c, n, b, minus);
    let bytes = s.bytes;
    write16(file, at.dest, bytes);
    s.clamped
}

// SQRDMLAH, or SQRDMLSH with MINUS. Answers whether a lane was clamped. It is not put in where it is called, so that the loop over the words stays short;
// so the places are handed over by themselves: `Operands` would go through memory at each call.
#[inline(never)]
pub fn elements<L: ByElement<K>, const K: usize, const MINUS: bool>(
    file: &mut [u8],
    dest: usize,
    first: usize,
    second: usize,
    index: usize,
    form: Form,
) -> bool
    requires within { Within (length file.old) dest first second }
    requires index_bound { index < K }
    ensures { Touched 16 (lane_bytes form L.size index MINUS) (lane_clamps form L.size index MINUS) file.old dest first second file.new result }
{
    let at = Operands {
        dest,
        first,
        second,
    };
    match form {
        Form::Scalar => touch::<L, K>(file, at, index, Form::Scalar, MINUS),
        Form::Vector64 => touch::<L, K>(file, at, index, Form::Vector64, MINUS),
        Form::Vector128 => touch::<L, K>(file, at, index, Form::Vector128, MINUS),
    }
}
