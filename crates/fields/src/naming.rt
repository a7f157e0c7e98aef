// The operation that eight numbers name.
ghost use Rattle.std.specs.Prelude.{◌≡◌, length};
ghost use Rattle.fields.specs.Named.{numbers_at, within_of, form_of, add_at, mul_at, indexed_at, element_at, group_with, group_at, named_if, add_unused, mul_unused, indexed_unused, element_unused, group_unused, family_named, named_of};

use crate::types::Numbers;
use codec::{rotation_of, size_of};
use isa::types::{Add, ByElement, Form, Group, Mul, MulGroup, MulIndexed, Op};

// Callers have seen that the part has eight numbers.
pub fn read_numbers(fields: &[u32]) -> Numbers
    requires { length fields.now ≡ 8 }
    ensures { result ≡ numbers_at fields.now }
{
    Numbers {
        family: fields[0],
        size: fields[1],
        form: fields[2],
        turns: fields[3],
        destination: fields[4],
        first: fields[5],
        second: fields[6],
        index: fields[7],
    }
}

fn within(n: Numbers) -> bool
    ensures { result ≡ within_of n }
{
    (n.size <= 3) & (n.turns <= 3)
}

fn form_of(n: u32) -> Form
    ensures { result ≡ form_of n }
{
    match n {
        0 => Form::Scalar,
        1 => Form::Vector64,
        _ => Form::Vector128,
    }
}

fn group_with(n: u32) -> Group
    ensures { result ≡ group_with n }
{
    if n == 2 { Group::Two } else { Group::Four }
}

// ---- the fields of an operation

fn add_at(n: Numbers) -> Add
    ensures { result ≡ add_at n }
{
    Add {
        size: size_of(n.size),
        rot: rotation_of(n.turns),
        zm: n.second,
        zdn: n.destination,
    }
}

fn mul_at(n: Numbers) -> Mul
    ensures { result ≡ mul_at n }
{
    Mul {
        size: size_of(n.size),
        rot: rotation_of(n.turns),
        zm: n.second,
        zn: n.first,
        zda: n.destination,
    }
}

fn indexed_at(n: Numbers) -> MulIndexed
    ensures { result ≡ indexed_at n }
{
    MulIndexed {
        size: size_of(n.size),
        rot: rotation_of(n.turns),
        zm: n.second,
        index: n.index,
        zn: n.first,
        zda: n.destination,
    }
}

fn element_at(n: Numbers) -> ByElement
    ensures { result ≡ element_at n }
{
    ByElement {
        form: form_of(n.form),
        size: size_of(n.size),
        rm: n.second,
        index: n.index,
        rn: n.first,
        rd: n.destination,
    }
}

fn group_at(n: Numbers) -> MulGroup
    ensures { result ≡ group_at n }
{
    MulGroup {
        size: size_of(n.size),
        zm: n.second,
        zdn: n.destination,
        group: group_with(n.form),
    }
}

// ---- the fields of a family, where what it does not use is 0 and the form is one that it has

fn named_if<T: Copy>(unused: bool, fields: T) -> Option<T>
    ensures { result ≡ named_if unused fields }
{
    if unused { Some(fields) } else { None }
}

fn add_named(n: Numbers) -> Option<Add>
    ensures { result ≡ named_if (add_unused n) (add_at n) }
{
    let unused = (n.form == 0) & ((n.first == 0) & (n.index == 0));
    named_if(unused, add_at(n))
}

fn mul_named(n: Numbers) -> Option<Mul>
    ensures { result ≡ named_if (mul_unused n) (mul_at n) }
{
    let unused = (n.form == 0) & (n.index == 0);
    named_if(unused, mul_at(n))
}

fn indexed_named(n: Numbers) -> Option<MulIndexed>
    ensures { result ≡ named_if (indexed_unused n) (indexed_at n) }
{
    named_if(n.form == 0, indexed_at(n))
}

fn element_named(n: Numbers) -> Option<ByElement>
    ensures { result ≡ named_if (element_unused n) (element_at n) }
{
    let unused = (n.form <= 2) & (n.turns == 0);
    named_if(unused, element_at(n))
}

fn group_named(n: Numbers) -> Option<MulGroup>
    ensures { result ≡ named_if (group_unused n) (group_at n) }
{
    let form = (n.form == 2) | (n.form == 4);
    let unused = form & ((n.turns == 0) & ((n.first == 0) & (n.index == 0)));
    named_if(unused, group_at(n))
}

fn family_named(n: Numbers) -> Option<Op>
    ensures { result ≡ family_named n }
{
    let family = n.family;
    match family {
        0 => add_named(n).map(Op::Cadd),
        1 => add_named(n).map(Op::Sqcadd),
        2 => mul_named(n).map(Op::Cmla),
        3 => indexed_named(n).map(Op::CmlaIndexed),
        4 => mul_named(n).map(Op::Sqrdcmlah),
        5 => indexed_named(n).map(Op::SqrdcmlahIndexed),
        6 => element_named(n).map(Op::Sqrdmlah),
        7 => element_named(n).map(Op::Sqrdmlsh),
        8 => group_named(n).map(Op::Sqdmulh),
        _ => None,
    }
}

pub fn named_by(n: Numbers) -> Option<Op>
    ensures { result ≡ named_of n }
{
    if within(n) { family_named(n) } else { None }
}
