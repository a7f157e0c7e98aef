// The eight numbers of an operation.
ghost use Rattle.std.specs.Prelude.{◌≡◌, length};
ghost use Rattle.fields.specs.Fields.{form_number, add_fields, mul_fields, indexed_fields, element_fields, group_fields, fields_of};

use codec::{by_group, rotation_bits, size_bits};
use isa::types::{Add, ByElement, Form, Mul, MulGroup, MulIndexed, Op};

fn form_number(form: Form) -> u32
    ensures { result ≡ form_number form }
{
    form as u32
}

// ---- the eight numbers, by the kind of operation

fn add_fields(family: u32, a: Add) -> [u32; 8]
    ensures { result ≡ add_fields family a }
{
    let size = a.size;
    let rot = a.rot;
    [
        family,
        size_bits(size),
        0,
        rotation_bits(rot),
        a.zdn,
        0,
        a.zm,
        0,
    ]
}

fn mul_fields(family: u32, a: Mul) -> [u32; 8]
    ensures { result ≡ mul_fields family a }
{
    let size = a.size;
    let rot = a.rot;
    [
        family,
        size_bits(size),
        0,
        rotation_bits(rot),
        a.zda,
        a.zn,
        a.zm,
        0,
    ]
}

fn indexed_fields(family: u32, a: MulIndexed) -> [u32; 8]
    ensures { result ≡ indexed_fields family a }
{
    let size = a.size;
    let rot = a.rot;
    [
        family,
        size_bits(size),
        0,
        rotation_bits(rot),
        a.zda,
        a.zn,
        a.zm,
        a.index,
    ]
}

fn element_fields(family: u32, a: ByElement) -> [u32; 8]
    ensures { result ≡ element_fields family a }
{
    let size = a.size;
    let form = a.form;
    [
        family,
        size_bits(size),
        form_number(form),
        0,
        a.rd,
        a.rn,
        a.rm,
        a.index,
    ]
}

fn group_fields(family: u32, a: MulGroup) -> [u32; 8]
    ensures { result ≡ group_fields family a }
{
    let size = a.size;
    let group = a.group;
    [
        family,
        size_bits(size),
        by_group(2, 4, group),
        0,
        a.zdn,
        0,
        a.zm,
        0,
    ]
}

// The families are numbered in the order of the listing's names.
pub fn fields_of(op: Op) -> [u32; 8]
    ensures { result ≡ fields_of op }
{
    match op {
        Op::Cadd(a) => add_fields(0, a),
        Op::Sqcadd(a) => add_fields(1, a),
        Op::Cmla(a) => mul_fields(2, a),
        Op::CmlaIndexed(a) => indexed_fields(3, a),
        Op::Sqrdcmlah(a) => mul_fields(4, a),
        Op::SqrdcmlahIndexed(a) => indexed_fields(5, a),
        Op::Sqrdmlah(a) => element_fields(6, a),
        Op::Sqrdmlsh(a) => element_fields(7, a),
        Op::Sqdmulh(a) => group_fields(8, a),
    }
}

// Callers have seen that the part has eight numbers.
pub fn put_fields(fields: &mut [u32], v: [u32; 8])
    requires { length fields.old ≡ 8 }
    ensures { fields.new ≡ v }
{
    fields.copy_from_slice(&v);
}
