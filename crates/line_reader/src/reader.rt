// Reading a line.
ghost use Rattle.std.specs.Prelude.{◌≡◌, ◌≢◌, true, ◌*◌, ◌<◌, ◌≤◌, length, get_or};
ghost use Rattle.isa.specs.Decode.{vector_of};
ghost use Rattle.grammar.specs.Grammar.{pattern_count, letter_count, add_from, mul_from, indexed_from, element_from, group_from};
ghost use Rattle.grammar.specs.Read.{make_at, read_of};
ghost use Rattle.line_reader.specs.Steps.{values_in, Tried, Reached};

use crate::matcher::follow;
use codec::{add_rotation_of, by_group, rotation_of, size_of};
use grammar::types::NotLine;
use isa::types::{Add, ByElement, Form, Group, Mul, MulGroup, MulIndexed, Op, Size};
use letters::templates::{PATTERNS, template_at};
use letters::texts::{LETTERS, wide};

// ---- the operation that values make

// The value of a letter.
fn letter(r: &[u8; LETTERS], x: usize) -> u32
    requires { x < letter_count }
    ensures { result ≡ values_in r.now x }
{
    wide(r[x])
}

fn vector_of(v: u32) -> Form
    ensures { result ≡ vector_of v }
{
    match v {
        0 => Form::Vector64,
        _ => Form::Vector128,
    }
}

fn add_of(r: &[u8; LETTERS]) -> Add
    ensures { result ≡ add_from (values_in r.now) }
{
    Add {
        size: size_of(letter(r, 19)),
        zm: letter(r, 12),
        zdn: letter(r, 3),
        rot: add_rotation_of(letter(r, 18)),
    }
}

fn mul_of(r: &[u8; LETTERS]) -> Mul
    ensures { result ≡ mul_from (values_in r.now) }
{
    Mul {
        size: size_of(letter(r, 19)),
        zm: letter(r, 12),
        zn: letter(r, 13),
        zda: letter(r, 3),
        rot: rotation_of(letter(r, 17)),
    }
}

// With the letters of the second source and of the index.
fn indexed_of(size: Size, m: usize, i: usize, r: &[u8; LETTERS]) -> MulIndexed
    requires { (m < letter_count) × (i < letter_count) }
    ensures { result ≡ indexed_from size m i (values_in r.now) }
{
    MulIndexed {
        size,
        zm: letter(r, m),
        index: letter(r, i),
        zn: letter(r, 13),
        zda: letter(r, 3),
        rot: rotation_of(letter(r, 17)),
    }
}

fn element_of(size: Size, form: Form, m: usize, i: usize, r: &[u8; LETTERS]) -> ByElement
    requires { (m < letter_count) × (i < letter_count) }
    ensures { result ≡ element_from size form m i (values_in r.now) }
{
    ByElement {
        size,
        rm: letter(r, m),
        index: letter(r, i),
        rn: letter(r, 13),
        rd: letter(r, 3),
        form,
    }
}

fn vector_by(x: usize, r: &[u8; LETTERS]) -> Form
    requires { x < letter_count }
    ensures { result ≡ vector_of (values_in r.now x) }
{
    vector_of(letter(r, x))
}

// With the letter of the group: the first register is that many groups from 0 on.
fn group_of(group: Group, x: usize, r: &[u8; LETTERS]) -> MulGroup
    requires { x < letter_count }
    ensures { result ≡ group_from group x (values_in r.now) }
{
    MulGroup {
        size: size_of(letter(r, 19)),
        zm: letter(r, 7),
        zdn: letter(r, x) << by_group(1, 2, group),
        group,
    }
}

// By the pattern.
fn make(pattern: usize, r: &[u8; LETTERS]) -> Op
    requires { pattern < pattern_count }
    ensures { result ≡ make_at pattern (values_in r.now) }
{
    match pattern {
        0 => Op::Cadd(add_of(r)),
        1 => Op::Cmla(mul_of(r)),
        2 => Op::CmlaIndexed(indexed_of(Size::H, 11, 9, r)),
        3 => Op::CmlaIndexed(indexed_of(Size::S, 7, 10, r)),
        4 => Op::Sqcadd(add_of(r)),
        5 => Op::Sqrdcmlah(mul_of(r)),
        6 => Op::SqrdcmlahIndexed(indexed_of(Size::H, 11, 9, r)),
        7 => Op::SqrdcmlahIndexed(indexed_of(Size::S, 7, 10, r)),
        8 => Op::Sqrdmlah(element_of(Size::H, Form::Scalar, 7, 8, r)),
        9 => Op::Sqrdmlah(element_of(Size::S, Form::Scalar, 12, 9, r)),
        10 => Op::Sqrdmlah(element_of(Size::H, vector_by(16, r), 7, 8, r)),
        11 => Op::Sqrdmlah(element_of(Size::S, vector_by(15, r), 12, 9, r)),
        12 => Op::Sqrdmlsh(element_of(Size::H, Form::Scalar, 7, 8, r)),
        13 => Op::Sqrdmlsh(element_of(Size::S, Form::Scalar, 12, 9, r)),
        14 => Op::Sqrdmlsh(element_of(Size::H, vector_by(16, r), 7, 8, r)),
        15 => Op::Sqrdmlsh(element_of(Size::S, vector_by(15, r), 12, 9, r)),
        16 => Op::Sqdmulh(group_of(Group::Two, 0, r)),
        _ => Op::Sqdmulh(group_of(Group::Four, 4, r)),
    }
}

// ---- the pattern that a line most likely has, by a few of its bytes. That it is right is not relied on

// 0: by vectors; 1: indexed at H; 2: indexed at S. By the size before the index, which the rotation follows.
fn indexed_by(s: &[u8]) -> usize
    ensures { result < 3 }
{
    match s {
        [.., size, _, _, b']', _, _, _, _]
        | [.., size, _, _, b']', _, _, _, _, _]
        | [.., size, _, _, b']', _, _, _, _, _, _] => { if *size == b'H' { 1 } else { 2 } }
        _ => 0,
    }
}

// By whether the registers are vectors, and by the size before the index.
fn element_by(s: &[u8]) -> usize
    requires { 16 ≤ length s.now }
    ensures { result < 4 }
{
    let vector = s[9] == b'V';
    let half = s[s.len() - 4] == b'H';
    match (vector, half) {
        (false, true) => 0,
        (false, false) => 1,
        (true, true) => 2,
        (true, false) => 3,
    }
}

// A group of two has the register after an even one, which differs in the last bit alone.
fn group_by(s: &[u8]) -> usize
    requires { 16 ≤ length s.now }
    ensures { result < 2 }
{
    if s.len() < 19 {
        return 0;
    }
    let (first, last) = if s[12] == b'.' {
        (s[11], s[16])
    } else {
        (s[12], s[18])
    };
    if first ^ last == 1 { 0 } else { 1 }
}

fn likely_pattern(s: &[u8]) -> usize
    ensures { result < pattern_count }
{
    if s.len() < 16 {
        return 0;
    }
    match s {
        [b'C', b'A', ..] => 0,
        [b'C', ..] => 1 + indexed_by(s),
        [_, _, b'C', ..] => 4,
        [_, _, b'D', ..] => 16 + group_by(s),
        [_, _, _, _, b'C', ..] => 5 + indexed_by(s),
        [_, _, _, _, _, _, b'A', ..] => 8 + element_by(s),
        _ => 12 + element_by(s),
    }
}

// ---- reading

// Whether a text that others follow so far has another byte than this one at a place before.
fn stops_short(byte: u8, at: usize, s: &[u8], far: usize) -> bool
    ensures { result ≡ true → (at ≤ far) × (get_or s.now at 0 ≢ byte) }
{
    at <= far && at < s.len() && s[at] != byte
}

// The template of a pattern, followed by a text, where others go so far. Most patterns are told by their mark to go no further.
fn try_pattern(pattern: usize, s: &[u8], far: usize) -> Result<[u8; LETTERS], NotLine>
    requires { pattern < pattern_count }
    ensures { Tried pattern s.now far result }
{
    let t = template_at(pattern);
    let mark = t.mark;
    if stops_short(t.text[mark], mark, s, far) {
        return Err(NotLine { reach: far });
    }
    follow(t.text, s)
}

// Every pattern in turn, where one goes so far: the first that has the text, or how far the furthest goes.
fn read_slowly(s: &[u8], reach: usize) -> Result<Op, NotLine>
    requires { Reached s.now reach }
    ensures { result ≡ read_of s.now }
{
    let mut furthest = reach;
    for pattern in 0..PATTERNS {
        match try_pattern(pattern, s, furthest) {
            Ok(values) => return Ok(make(pattern, &values)),
            Err(refusal) => furthest = furthest.max(refusal.reach),
        }
    }
    Err(NotLine { reach: furthest })
}

// A line has one pattern, so the first that has it whole is right, whichever was tried.
pub fn read_line(s: &[u8]) -> Result<Op, NotLine>
    ensures { result ≡ read_of s.now }
{
    let pattern = likely_pattern(s);
    match try_pattern(pattern, s, 0) {
        Ok(values) => Ok(make(pattern, &values)),
        Err(refusal) => read_slowly(s, refusal.reach),
    }
}
