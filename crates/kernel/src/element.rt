// The families by element.
ghost use Rattle.std.specs.Prelude.{◌≡◌, ◌%◌, ◌≤◌};
ghost use Rattle.isa.specs.Meaning.{lane_count};
ghost use Rattle.isa.specs.Segment.{bytes_of, Elements, ElementsBy};

use crate::lane::{ByElement, Lane};
use crate::segment::{any_overflow, narrowed, rounded_sums};
use common::element::Saturated;
use isa::types::Form;

// The lanes of the form, of K in a segment.
#[inline(always)]
fn count<L: ByElement<K>, const K: usize>(form: Form) -> usize
    ensures { (result ≡ lane_count form L.size) × (result ≤ K) }
{
    match form {
        Form::Scalar => 1,
        Form::Vector64 => K / 2,
        Form::Vector128 => K,
    }
}

// The lanes of the form, plus or minus the product with b. It is put in at each call, so that a constant form leaves a constant number of lanes in the loops.
#[inline(always)]
pub fn by_element<L: ByElement<K>, const K: usize>(
    form: Form,
    c: [u8; 16],
    n: [u8; 16],
    b: L,
    minus: bool,
) -> Saturated
    ensures { ElementsBy form L.size (L.value b) minus result.bytes result.clamped c n }
{
    let x = L::lanes(c);
    let s = rounded_sums(x, L::lanes(n), b, count::<L, K>(form), minus);
    Saturated {
        bytes: L::bytes(narrowed(s, x)),
        clamped: any_overflow::<L, K>(s),
    }
}

// SQRDMLAH by element on the first 16 bytes, or SQRDMLSH with `minus`. The index is taken modulo the K elements of a segment.
pub fn elements<L: ByElement<K>, const K: usize>(
    c: [u8; 16],
    n: [u8; 16],
    m: [u8; 16],
    index: usize,
    form: Form,
    minus: bool,
) -> Saturated
    ensures { Elements form L.size (index % K) minus result.bytes result.clamped c n (bytes_of m) }
{
    by_element(form, c, n, L::element(&m, 0, index % K), minus)
}
