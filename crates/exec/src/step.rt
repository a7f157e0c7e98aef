// One operation on the lent file.
ghost use Rattle.std.specs.Prelude.{◌≡◌};
ghost use Rattle.isa.specs.Register.{group_count};
ghost use Rattle.isa.specs.Valid.{Valid, AddValid, MulValid, IndexedValid, ElementValid, GroupValid};
ghost use Rattle.regfile.specs.Sweep.{Held};
ghost use Rattle.exec.specs.Step.{Executed, add_of, mul_of, indexed_of, element_of};

use crate::families::{elements, group, indexed, products, sums};
use isa::types::{Add, ByElement, Group, Mul, MulGroup, MulIndexed, Op};
use regfile::layout::Layout;
use regfile::segment::clear_above;

// ---- the families: each finds where its registers start

// CADD, or SQCADD with SATURATING.
fn add<const SATURATING: bool>(layout: &Layout, file: &mut [u8], a: Add) -> bool
    requires held { Held layout.now.l file.old }
    requires valid { AddValid a }
    ensures { Executed layout.now.l (add_of SATURATING a) file.old file.new result }
{
    let at = layout.operands(a.zdn, a.zdn, a.zm);
    sums::<SATURATING>(a.size, a.rot, layout.l, file, at);
    false
}

// CMLA, or SQRDCMLAH with ROUNDING.
fn mul<const ROUNDING: bool>(layout: &Layout, file: &mut [u8], a: Mul) -> bool
    requires held { Held layout.now.l file.old }
    requires valid { MulValid a }
    ensures { Executed layout.now.l (mul_of ROUNDING a) file.old file.new result }
{
    let at = layout.operands(a.zda, a.zn, a.zm);
    products::<ROUNDING>(a.size, a.rot, layout.l, file, at);
    false
}

// The same, indexed.
fn mul_indexed<const ROUNDING: bool>(layout: &Layout, file: &mut [u8], a: MulIndexed) -> bool
    requires held { Held layout.now.l file.old }
    requires valid { IndexedValid a }
    ensures { Executed layout.now.l (indexed_of ROUNDING a) file.old file.new result }
{
    let at = layout.operands(a.zda, a.zn, a.zm);
    indexed::<ROUNDING>(a.size, a.rot, a.index as usize, layout.l, file, at);
    false
}

// SQRDMLAH, or SQRDMLSH with MINUS. All sources are read before anything is stored, and nothing above the first 16 bytes is read.
fn by_element<const MINUS: bool>(layout: &Layout, file: &mut [u8], a: ByElement) -> bool
    requires held { Held layout.now.l file.old }
    requires valid { ElementValid a }
    ensures { Executed layout.now.l (element_of MINUS a) file.old file.new result }
{
    let at = layout.operands(a.rd, a.rn, a.rm);
    let clamped = elements::<MINUS>(a.size, a.form, a.index as usize, file, at);
    clear_above(layout.l, file, at.dest);
    clamped
}

// SQDMULH on a group of COUNT registers, which follow its first.
fn mul_group<const COUNT: usize>(layout: &Layout, file: &mut [u8], a: MulGroup) -> bool
    requires held { Held layout.now.l file.old }
    requires valid { GroupValid a }
    requires count { group_count a.group ≡ COUNT }
    ensures { Executed layout.now.l (Op.Sqdmulh a) file.old file.new result }
{
    let at = layout.operands(a.zdn, a.zdn, a.zm);
    group::<COUNT>(a.size, layout.l, file, at.dest, at.second);
    false
}

// An operation that a word decoded to, on a checked file: `step_word` has both. Answers whether it sets the flag.
pub fn step(layout: &Layout, file: &mut [u8], op: Op) -> bool
    requires held { Held layout.now.l file.old }
    requires valid { Valid op }
    ensures { Executed layout.now.l op file.old file.new result }
{
    match op {
        Op::Cadd(a) => add::<false>(layout, file, a),
        Op::Sqcadd(a) => add::<true>(layout, file, a),
        Op::Cmla(a) => mul::<false>(layout, file, a),
        Op::Sqrdcmlah(a) => mul::<true>(layout, file, a),
        Op::CmlaIndexed(a) => mul_indexed::<false>(layout, file, a),
        Op::SqrdcmlahIndexed(a) => mul_indexed::<true>(layout, file, a),
        Op::Sqrdmlah(a) => by_element::<false>(layout, file, a),
        Op::Sqrdmlsh(a) => by_element::<true>(layout, file, a),
        Op::Sqdmulh(a) => match a.group {
            Group::Two => mul_group::<2>(layout, file, a),
            Group::Four => mul_group::<4>(layout, file, a),
        },
    }
}
