// Writing a line.
#![tactic(auto)]

mod text;

ghost use Rattle.std.specs.Prelude.{◌≡◌, ◌++◌, map, ◌+◌, ◌<◌, ◌≤◌, length, take};
ghost use Rattle.isa.specs.Encode.{by_size};
ghost use Rattle.grammar.specs.Template.{fill};
ghost use Rattle.grammar.specs.Grammar.{variables, item_of, pattern_count, letter_count, line_max, form_bits, by_form, add_values, mul_values, indexed_values, element_values, pattern_of, values_of, line_of};
ghost use Rattle.grammar.specs.Line.{Writable};
ghost use Rattle.grammar.specs.Write.{fitting, line_outcome, write_of};
ghost use Rattle.line_writer.specs.Fill.{values_from, Low, Few, indexed_by, element_by, group_with, group_by, item_text};

use codec::{add_rotation_bits, by_group, by_size, encode, rotation_bits, size_bits};
use grammar::types::LineRefusal;
use isa::types::{Add, ByElement, Form, Group, Mul, MulGroup, MulIndexed, Op, Size};
use letters::templates::template_at;
use letters::texts::{LETTERS, slot_of, text_of};
pub use text::Text;

// ---- the pattern and the values of an operation: the makers in reverse

fn form_bits(f: Form) -> u8
    ensures { result ≡ form_bits f }
{
    match f {
        Form::Scalar | Form::Vector64 => 0,
        Form::Vector128 => 1,
    }
}

fn by_form(s: u32, v: u32, f: Form) -> u32
    ensures { result ≡ by_form s v f }
{
    match f {
        Form::Scalar => s,
        Form::Vector64 | Form::Vector128 => v,
    }
}

fn element_pattern(first: u32, a: ByElement) -> u32
    requires { first < pattern_count }
    ensures { result ≡ by_form (by_size first (first + 1) a.size) (by_size (first + 2) (first + 3) a.size) a.form }
{
    by_form(
        by_size(first, first + 1, a.size),
        by_size(first + 2, first + 3, a.size),
        a.form,
    )
}

fn pattern_of(op: Op) -> u32
    ensures { result ≡ pattern_of op }
{
    match op {
        Op::Cadd(_) => 0,
        Op::Cmla(_) => 1,
        Op::CmlaIndexed(a) => by_size(2, 3, a.size),
        Op::Sqcadd(_) => 4,
        Op::Sqrdcmlah(_) => 5,
        Op::SqrdcmlahIndexed(a) => by_size(6, 7, a.size),
        Op::Sqrdmlah(a) => element_pattern(8, a),
        Op::Sqrdmlsh(a) => element_pattern(12, a),
        Op::Sqdmulh(a) => by_group(16, 17, a.group),
    }
}

fn narrow(x: u32) -> u8
    requires { x < 100 }
    ensures { result ≡ x }
{
    x as u8
}

fn add_values(a: Add) -> [u8; LETTERS]
    requires { (a.zm < 100) × (a.zdn < 100) }
    ensures { values_from result ≡ add_values a }
{
    let mut r = [0; LETTERS];
    r[18] = narrow(add_rotation_bits(a.rot));
    r[12] = narrow(a.zm);
    r[19] = narrow(size_bits(a.size));
    r[3] = narrow(a.zdn);
    r
}

fn mul_values(a: Mul) -> [u8; LETTERS]
    requires { (a.zm < 100) × (a.zn < 100) × (a.zda < 100) }
    ensures { values_from result ≡ mul_values a }
{
    let mut r = [0; LETTERS];
    r[17] = narrow(rotation_bits(a.rot));
    r[12] = narrow(a.zm);
    r[13] = narrow(a.zn);
    r[19] = narrow(size_bits(a.size));
    r[3] = narrow(a.zda);
    r
}

fn indexed_values(m: usize, i: usize, a: MulIndexed) -> [u8; LETTERS]
    requires { (m < letter_count) × (i < letter_count) × (a.zm < 100) × (a.index < 100) × (a.zn < 100) × (a.zda < 100) }
    ensures { values_from result ≡ indexed_values m i a }
{
    let mut r = [0; LETTERS];
    r[17] = narrow(rotation_bits(a.rot));
    r[i] = narrow(a.index);
    r[m] = narrow(a.zm);
    r[13] = narrow(a.zn);
    r[3] = narrow(a.zda);
    r
}

fn element_values(q: usize, m: usize, i: usize, a: ByElement) -> [u8; LETTERS]
    requires { (q < letter_count) × (m < letter_count) × (i < letter_count) × (a.rm < 100) × (a.index < 100) × (a.rn < 100) × (a.rd < 100) }
    ensures { values_from result ≡ element_values q m i a }
{
    let mut r = [0; LETTERS];
    r[i] = narrow(a.index);
    r[m] = narrow(a.rm);
    r[13] = narrow(a.rn);
    r[q] = form_bits(a.form);
    r[3] = narrow(a.rd);
    r
}

fn sized_indexed(a: MulIndexed) -> [u8; LETTERS]
    requires { Few (indexed_by a) }
    ensures { values_from result ≡ indexed_by a }
{
    match a.size {
        Size::B | Size::H => indexed_values(11, 9, a),
        Size::S | Size::D => indexed_values(7, 10, a),
    }
}

fn sized_element(a: ByElement) -> [u8; LETTERS]
    requires { Few (element_by a) }
    ensures { values_from result ≡ element_by a }
{
    match a.size {
        Size::B | Size::H => element_values(16, 7, 8, a),
        Size::S | Size::D => element_values(15, 12, 9, a),
    }
}

// With the letter of the group, and its number.
fn group_values(x: usize, number: u32, a: MulGroup) -> [u8; LETTERS]
    requires { (x < letter_count) × (number < 100) × (a.zm < 100) }
    ensures { values_from result ≡ group_with x number a }
{
    let mut r = [0; LETTERS];
    r[7] = narrow(a.zm);
    r[19] = narrow(size_bits(a.size));
    r[x] = narrow(number);
    r
}

fn grouped(a: MulGroup) -> [u8; LETTERS]
    requires { Few (group_by a) }
    ensures { values_from result ≡ group_by a }
{
    match a.group {
        Group::Two => group_values(0, a.zdn >> 1, a),
        Group::Four => group_values(4, a.zdn >> 2, a),
    }
}

fn values_of(op: Op) -> [u8; LETTERS]
    requires { Few (values_of op) }
    ensures { values_from result ≡ values_of op }
{
    match op {
        Op::Cadd(a) => add_values(a),
        Op::Cmla(a) => mul_values(a),
        Op::CmlaIndexed(a) => sized_indexed(a),
        Op::Sqcadd(a) => add_values(a),
        Op::Sqrdcmlah(a) => mul_values(a),
        Op::SqrdcmlahIndexed(a) => sized_indexed(a),
        Op::Sqrdmlah(a) => sized_element(a),
        Op::Sqrdmlsh(a) => sized_element(a),
        Op::Sqdmulh(a) => grouped(a),
    }
}

// ---- a template with values for its letters

fn put_item(c: u8, values: &[u8; LETTERS], line: &mut Text)
    requires { Low (values_from values.now) × (length (take line.old.size line.old.bytes) + length (item_text (item_of c) (values_from values.now)) ≤ line_max) }
    ensures { take line.new.size line.new.bytes ≡ take line.old.size line.old.bytes ++ item_text (item_of c) (values_from values.now) }
{
    match c {
        b'a'..=b'z' => {
            let x = (c - b'a') as usize;
            line.push_text(text_of(x, values[slot_of(x)]));
        }
        _ => line.push(c),
    }
}

fn fill_template(template: &[u8], values: &[u8; LETTERS]) -> Text
    requires { Low (values_from values.now) × (length (fill variables (map item_of template.now) (values_from values.now)) ≤ line_max) }
    ensures { take result.size result.bytes ≡ fill variables (map item_of template.now) (values_from values.now) }
{
    let mut line = Text::new();
    for &c in template {
        put_item(c, values, &mut line);
    }
    line
}

fn line_of(op: Op) -> Text
    requires { Writable op }
    ensures { take result.size result.bytes ≡ line_of op }
{
    let values = values_of(op);
    let t = template_at(pattern_of(op) as usize);
    fill_template(t.text, &values)
}

// ---- the lent buffer

fn put_line(line: &[u8], out: &mut [u8]) -> Result<usize, LineRefusal>
    ensures { record { answer = result; out = out.new } ≡ line_outcome (fitting line.now (length out.old)) line.now out.old }
{
    let n = line.len();
    if out.len() < n {
        return Err(LineRefusal::Room);
    }
    out[..n].copy_from_slice(line);
    Ok(n)
}

// The line of an operation, at the start of a buffer; what refuses its word refuses its line.
pub fn write_line(op: Op, out: &mut [u8]) -> Result<usize, LineRefusal>
    ensures { record { answer = result; out = out.new } ≡ write_of op out.old }
{
    encode(op)?;
    put_line(line_of(op).as_slice(), out)
}
