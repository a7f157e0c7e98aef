// The operation that a word is: its size, rotation and opcode fields, taken out as numbers, choose the family and the form.
ghost use Rattle.std.specs.Prelude.{◌≡◌, ◌/◌, ◌%◌};
ghost use Rattle.isa.specs.Field.{field_value};
ghost use Rattle.isa.specs.Table.{size};
ghost use Rattle.isa.specs.Decode.{size_of, rotation_of, add_rotation_of, add_of, mul_of, indexed_with, element_with, element_of, group_with, decode_of};
ghost use Rattle.codec.specs.Pair.{form_top, ElementTop, OtherTop, add_by, mul_by, mul_opcode, indexed_by, indexed_opcode, element_by, element_opcode, group_opcode};

use crate::encoder::by_group;
use isa::types::{
    Add, ByElement, Decoded, Form, Group, Mul, MulGroup, MulIndexed, Op, Rotation, Size,
};

// No TryFrom, here and below: these answer for every number, and a call that cannot fail stays so.
pub fn size_of(n: u32) -> Size
    ensures { result ≡ size_of n }
{
    match n {
        0 => Size::B,
        1 => Size::H,
        2 => Size::S,
        _ => Size::D,
    }
}

pub fn rotation_of(n: u32) -> Rotation
    ensures { result ≡ rotation_of n }
{
    match n {
        0 => Rotation::R0,
        1 => Rotation::R90,
        2 => Rotation::R180,
        _ => Rotation::R270,
    }
}

pub fn add_rotation_of(n: u32) -> Rotation
    ensures { result ≡ add_rotation_of n }
{
    match n {
        0 => Rotation::R90,
        _ => Rotation::R270,
    }
}

// One of the by-element forms: `decode` has looked at bits 31 to 24.
fn form_of(top: u32) -> Form
    requires { ElementTop top }
    ensures { top ≡ form_top result }
{
    match top {
        0x2F => Form::Vector64,
        0x6F => Form::Vector128,
        _ => Form::Scalar,
    }
}

// ---- the fields of a row

fn read_add(word: u32) -> Add
    ensures { result ≡ add_of word }
{
    Add {
        size: size_of((word >> 22) % 4),
        rot: add_rotation_of((word >> 10) % 2),
        zm: (word >> 5) % 32,
        zdn: word % 32,
    }
}

fn read_mul(word: u32) -> Mul
    ensures { result ≡ mul_of word }
{
    Mul {
        size: size_of((word >> 22) % 4),
        rot: rotation_of((word >> 10) % 4),
        zm: (word >> 16) % 32,
        zn: (word >> 5) % 32,
        zda: word % 32,
    }
}

fn read_indexed(word: u32, size: Size, zm: u32, index: u32) -> MulIndexed
    ensures { result ≡ indexed_with size zm index word }
{
    MulIndexed {
        size,
        rot: rotation_of((word >> 10) % 4),
        zm,
        index,
        zn: (word >> 5) % 32,
        zda: word % 32,
    }
}

fn read_element(word: u32, form: Form, size: Size, rm: u32, index: u32) -> ByElement
    ensures { result ≡ element_with form size rm index word }
{
    ByElement {
        form,
        size,
        rm,
        index,
        rn: (word >> 5) % 32,
        rd: word % 32,
    }
}

// The low bits of the first register are zero.
fn read_group(word: u32, group: Group) -> MulGroup
    ensures { result ≡ group_with group (word % 32) word }
{
    MulGroup {
        size: size_of((word >> 22) % 4),
        zm: (word >> 16) % 16,
        zdn: word % 32,
        group,
    }
}

// ---- families that differ in one choice

fn add_operation(saturating: bool, a: Add) -> Decoded
    ensures { result ≡ Decoded.Operation (add_by saturating a) }
{
    if saturating {
        Decoded::Operation(Op::Sqcadd(a))
    } else {
        Decoded::Operation(Op::Cadd(a))
    }
}

fn mul_operation(rounding: bool, a: Mul) -> Decoded
    ensures { result ≡ Decoded.Operation (mul_by rounding a) }
{
    if rounding {
        Decoded::Operation(Op::Sqrdcmlah(a))
    } else {
        Decoded::Operation(Op::Cmla(a))
    }
}

fn indexed_operation(rounding: bool, a: MulIndexed) -> Decoded
    ensures { result ≡ Decoded.Operation (indexed_by rounding a) }
{
    if rounding {
        Decoded::Operation(Op::SqrdcmlahIndexed(a))
    } else {
        Decoded::Operation(Op::CmlaIndexed(a))
    }
}

fn element_operation(minus: bool, a: ByElement) -> Decoded
    ensures { result ≡ Decoded.Operation (element_by minus a) }
{
    if minus {
        Decoded::Operation(Op::Sqrdmlsh(a))
    } else {
        Decoded::Operation(Op::Sqrdmlah(a))
    }
}

// ---- by the opcode

// Bits 31 to 24 are 45; bits 21 to 11 choose.
fn decode_add(word: u32) -> Decoded
    requires { word / 16777216 ≡ 0x45 }
    ensures { result ≡ decode_of word }
{
    let opcode = (word >> 11) % 2048;
    match opcode {
        0b000_0001_1011 => add_operation(false, read_add(word)),
        0b000_0011_1011 => add_operation(true, read_add(word)),
        _ => Decoded::Outside, // no other opcode under 45
    }
}

// Bit 21 is 0.
fn decode_vectors(word: u32, rounding: bool) -> Decoded
    requires { (word / 16777216 ≡ 0x44) × (word / 4096 % 16 ≡ mul_opcode rounding) }
    ensures { result ≡ decode_of word }
{
    let fixed = (word >> 21) % 2;
    match fixed {
        0 => mul_operation(rounding, read_mul(word)),
        _ => Decoded::Outside, // bit 21 is 1
    }
}

// Bits 23 to 21: 101 is H, with two bits of index, and 111 is S, with one.
fn decode_indexed(word: u32, rounding: bool) -> Decoded
    requires { (word / 16777216 ≡ 0x44) × (word / 4096 % 16 ≡ indexed_opcode rounding) }
    ensures { result ≡ decode_of word }
{
    let size = (word >> 21) % 8;
    match size {
        0b101 => indexed_operation(
            rounding,
            read_indexed(word, Size::H, (word >> 16) % 8, (word >> 19) % 4),
        ),
        0b111 => indexed_operation(
            rounding,
            read_indexed(word, Size::S, (word >> 16) % 16, (word >> 20) % 2),
        ),
        _ => Decoded::Outside, // no other size of an indexed word
    }
}

// Bits 31 to 24 are 44; bits 15 to 12 choose.
fn decode_product(word: u32) -> Decoded
    requires { word / 16777216 ≡ 0x44 }
    ensures { result ≡ decode_of word }
{
    let opcode = (word >> 12) % 16;
    match opcode {
        0b0010 => decode_vectors(word, false),
        0b0011 => decode_vectors(word, true),
        0b0110 => decode_indexed(word, false),
        0b0111 => decode_indexed(word, true),
        _ => Decoded::Outside, // no other opcode under 44
    }
}

// Only H and S exist. H: the index is H:L:M and the register Rm. S: the index is H:L and the register M:Rm.
fn decode_sized(word: u32, form: Form, minus: bool) -> Decoded
    requires { (word / 16777216 ≡ form_top form) × ((word / 1024 % 2 ≡ 0) × (word / 4096 % 16 ≡ element_opcode minus)) }
    ensures { result ≡ decode_of word }
{
    let h = (word >> 11) % 2;
    let l = (word >> 21) % 2;
    let m = (word >> 20) % 2;
    let rm = (word >> 16) % 16;
    let size = (word >> 22) % 4;
    match size {
        0b01 => element_operation(
            minus,
            read_element(word, form, Size::H, rm, (h << 2) + (l << 1) + m),
        ),
        0b10 => element_operation(
            minus,
            read_element(word, form, Size::S, (m << 4) + rm, (h << 1) + l),
        ),
        _ => Decoded::Reserved,
    }
}

// Bits 31 to 24 are those of a by-element form; bits 15 to 12 and bit 10 choose.
fn decode_element(word: u32, form: Form) -> Decoded
    requires { word / 16777216 ≡ form_top form }
    ensures { result ≡ decode_of word }
{
    let opcode = ((word >> 12) % 16 << 1) + (word >> 10) % 2;
    match opcode {
        0b1101_0 => decode_sized(word, form, false),
        0b1111_0 => decode_sized(word, form, true),
        _ => Decoded::Outside, // no other opcode by element
    }
}

// A group starts at a multiple of its registers.
fn decode_start(word: u32, group: Group) -> Decoded
    requires { (word / 16777216 ≡ 0xC1) × ((word / 1048576 % 4 ≡ 2) × (word / 32 % 2048 ≡ group_opcode group)) }
    ensures { result ≡ decode_of word }
{
    let a = read_group(word, group);
    let low = by_group(word % 2, word % 4, group);
    match low {
        0 => Decoded::Operation(Op::Sqdmulh(a)),
        _ => Decoded::Outside, // the low bits are not zero
    }
}

// Bits 31 to 24, 21 to 20 and 15 to 5 choose. All are looked at here, so that no word of the other families is asked for bits 31 to 24 once more.
fn decode_group(word: u32) -> Decoded
    requires { OtherTop (word / 16777216) }
    ensures { result ≡ decode_of word }
{
    let opcode = (word >> 24 << 13) + ((word >> 20) % 4 << 11) + (word >> 5) % 2048;
    match opcode {
        0b1100_0001_10_1010_0100_000 => decode_start(word, Group::Two),
        0b1100_0001_10_1010_1100_000 => decode_start(word, Group::Four),
        _ => Decoded::Outside, // no other bits 31 to 24, or no other opcode under C1
    }
}

pub fn decode(word: u32) -> Decoded
    ensures { result ≡ decode_of word }
{
    let top = word >> 24;
    match top {
        0x44 => decode_product(word),
        0x45 => decode_add(word),
        0x2F | 0x6F | 0x7F => decode_element(word, form_of(top)),
        _ => decode_group(word),
    }
}
