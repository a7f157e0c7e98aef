// The loops over registers, and the first segment by element, by size. Callers have checked the length and where the registers stand. None of the
// loops is put in where it is called, so that the loop over the words stays short.
ghost use Rattle.std.specs.Prelude.{◌≡◌, true, ◌<◌, length};
ghost use Rattle.isa.specs.Encode.{half_or_single, by_size};
ghost use Rattle.integer.specs.Lane.{doubled_high};
ghost use Rattle.isa.specs.Meaning.{lane_bytes, lane_clamps, lane_wise};
ghost use Rattle.isa.specs.Register.{bits};
ghost use Rattle.isa.specs.Sources.{add_rule, mul_rule, indexed_rule};
ghost use Rattle.isa.specs.Stage.{crossed};
ghost use Rattle.regfile.specs.Group.{GroupLying, GroupSwept};
ghost use Rattle.regfile.specs.Sweep.{Lying, Swept, Within, Touched};

use isa::types::{Form, Rotation, Size};
use regfile::layout::Operands;

// CADD, or SQCADD with SATURATING.
#[inline(never)]
pub fn sums<const SATURATING: bool>(
    size: Size,
    rot: Rotation,
    l: usize,
    file: &mut [u8],
    at: Operands,
)
    requires lying { Lying l file.old at.dest at.first at.second }
    requires rot_value { crossed rot ≡ true }
    ensures { Swept l (add_rule SATURATING size rot) file.old at.dest at.first at.second file.new }
{
    match size {
        Size::B => vector::sums::sums::<i8, 16, SATURATING>(l, file, at, rot),
        Size::H => vector::sums::sums::<i16, 8, SATURATING>(l, file, at, rot),
        Size::S => vector::sums::sums::<i32, 4, SATURATING>(l, file, at, rot),
        Size::D => vector::sums::sums::<i64, 2, SATURATING>(l, file, at, rot),
    }
}

// CMLA, or SQRDCMLAH with ROUNDING.
#[inline(never)]
pub fn products<const ROUNDING: bool>(
    size: Size,
    rot: Rotation,
    l: usize,
    file: &mut [u8],
    at: Operands,
)
    requires { Lying l file.old at.dest at.first at.second }
    ensures { Swept l (mul_rule ROUNDING size rot) file.old at.dest at.first at.second file.new }
{
    match size {
        Size::B => vector::products::products::<i8, 16, ROUNDING>(l, file, at, rot),
        Size::H => vector::products::products::<i16, 8, ROUNDING>(l, file, at, rot),
        Size::S => vector::products::products::<i32, 4, ROUNDING>(l, file, at, rot),
        Size::D => vector::products::products::<i64, 2, ROUNDING>(l, file, at, rot),
    }
}

// The same, indexed. Only H and S have an indexed form, and no other size is handed over.
#[inline(never)]
pub fn indexed<const ROUNDING: bool>(
    size: Size,
    rot: Rotation,
    index: usize,
    l: usize,
    file: &mut [u8],
    at: Operands,
)
    requires lying { Lying l file.old at.dest at.first at.second }
    requires size_value { (half_or_single size ≡ true) × (index < by_size 4 2 size) }
    ensures { Swept l (indexed_rule ROUNDING size index rot) file.old at.dest at.first at.second file.new }
{
    match size {
        Size::B => (),
        Size::H => vector::indexed::indexed::<i16, 8, ROUNDING>(l, file, at, index, rot),
        Size::S => vector::indexed::indexed::<i32, 4, ROUNDING>(l, file, at, index, rot),
        Size::D => (),
    }
}

// SQRDMLAH, or SQRDMLSH with MINUS, on the first segment. Only H and S have a form by element, and no other size is handed over.
pub fn elements<const MINUS: bool>(
    size: Size,
    form: Form,
    index: usize,
    file: &mut [u8],
    at: Operands,
) -> bool
    requires within { Within (length file.old) at.dest at.first at.second }
    requires size_value { (half_or_single size ≡ true) × (index < by_size 8 4 size) }
    ensures { Touched 16 (lane_bytes form size index MINUS) (lane_clamps form size index MINUS) file.old at.dest at.first at.second file.new result }
{
    match size {
        Size::B => false,
        Size::H => vector::element::elements::<i16, 8, MINUS>(
            file, at.dest, at.first, at.second, index, form,
        ),
        Size::S => vector::element::elements::<i32, 4, MINUS>(
            file, at.dest, at.first, at.second, index, form,
        ),
        Size::D => false,
    }
}

// SQDMULH on a group of COUNT registers.
#[inline(never)]
pub fn group<const COUNT: usize>(size: Size, l: usize, file: &mut [u8], d: usize, m: usize)
    requires { GroupLying l file.old COUNT d m }
    ensures { GroupSwept l COUNT (lane_wise size (doubled_high (bits size))) file.old d m file.new }
{
    match size {
        Size::B => vector::group::group::<i8, 16, COUNT>(l, file, d, m),
        Size::H => vector::group::group::<i16, 8, COUNT>(l, file, d, m),
        Size::S => vector::group::group::<i32, 4, COUNT>(l, file, d, m),
        Size::D => vector::group::group::<i64, 2, COUNT>(l, file, d, m),
    }
}
