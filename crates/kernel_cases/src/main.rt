// Works the stored cases of standard input with the kernels, and prints the 16 bytes that come of each.
// A case has 52 bytes: family, size, quarter turns (by element: form) and index; then 16 bytes each of the addend c, the first source n and the second source m. CADD, SQCADD and SQDMULH use no n.
#![tactic(auto)]

ghost use Rattle.std.specs.Prelude.{◌≡◌, true};
ghost use Rattle.isa.specs.Stage.{crossed};

use common::element::Saturated;
use isa::types::{Form, Rotation, Size};
use kernel::element::elements;
use kernel::{indexed, vectors};
use std::io::Read;
use std::{fmt, io};

// Nothing says that the input ends, so the loop counts the cases.
const MOST: usize = 100000;

// ---- from numbers to the types of an operation

fn size_of(n: u8) -> Size {
    match n {
        0 => Size::B,
        1 => Size::H,
        2 => Size::S,
        _ => Size::D,
    }
}

fn rotation_of(turns: u8) -> Rotation {
    match turns {
        0 => Rotation::R0,
        1 => Rotation::R90,
        2 => Rotation::R180,
        _ => Rotation::R270,
    }
}

// CADD and SQCADD have only 90 and 270: any other number of turns counts as 1.
fn add_rotation_of(turns: u8) -> Rotation
    ensures { crossed result ≡ true }
{
    match turns {
        3 => Rotation::R270,
        _ => Rotation::R90,
    }
}

fn form_of(n: u8) -> Form {
    match n {
        0 => Form::Scalar,
        1 => Form::Vector64,
        _ => Form::Vector128,
    }
}

// ---- a kernel for each family and size: a type parameter is no value that a closure could take, so each family has its own arms

fn cadd(size: Size, rot: Rotation, c: [u8; 16], m: [u8; 16]) -> [u8; 16]
    requires { crossed rot ≡ true }
{
    match size {
        Size::B => vectors::cadd::<i8, 16>(c, m, rot),
        Size::H => vectors::cadd::<i16, 8>(c, m, rot),
        Size::S => vectors::cadd::<i32, 4>(c, m, rot),
        Size::D => vectors::cadd::<i64, 2>(c, m, rot),
    }
}

fn sqcadd(size: Size, rot: Rotation, c: [u8; 16], m: [u8; 16]) -> [u8; 16]
    requires { crossed rot ≡ true }
{
    match size {
        Size::B => vectors::sqcadd::<i8, 16>(c, m, rot),
        Size::H => vectors::sqcadd::<i16, 8>(c, m, rot),
        Size::S => vectors::sqcadd::<i32, 4>(c, m, rot),
        Size::D => vectors::sqcadd::<i64, 2>(c, m, rot),
    }
}

fn cmla(size: Size, rot: Rotation, c: [u8; 16], n: [u8; 16], m: [u8; 16]) -> [u8; 16] {
    match size {
        Size::B => vectors::cmla::<i8, 16>(c, n, m, rot),
        Size::H => vectors::cmla::<i16, 8>(c, n, m, rot),
        Size::S => vectors::cmla::<i32, 4>(c, n, m, rot),
        Size::D => vectors::cmla::<i64, 2>(c, n, m, rot),
    }
}

fn sqrdcmlah(size: Size, rot: Rotation, c: [u8; 16], n: [u8; 16], m: [u8; 16]) -> [u8; 16] {
    match size {
        Size::B => vectors::sqrdcmlah::<i8, 16>(c, n, m, rot),
        Size::H => vectors::sqrdcmlah::<i16, 8>(c, n, m, rot),
        Size::S => vectors::sqrdcmlah::<i32, 4>(c, n, m, rot),
        Size::D => vectors::sqrdcmlah::<i64, 2>(c, n, m, rot),
    }
}

fn sqdmulh(size: Size, c: [u8; 16], m: [u8; 16]) -> [u8; 16] {
    match size {
        Size::B => vectors::sqdmulh::<i8, 16>(c, m),
        Size::H => vectors::sqdmulh::<i16, 8>(c, m),
        Size::S => vectors::sqdmulh::<i32, 4>(c, m),
        Size::D => vectors::sqdmulh::<i64, 2>(c, m),
    }
}

// The families below have H and S alone: any other size counts as S.

fn cmla_indexed(
    size: Size,
    rot: Rotation,
    index: usize,
    c: [u8; 16],
    n: [u8; 16],
    m: [u8; 16],
) -> [u8; 16] {
    match size {
        Size::H => indexed::cmla::<i16, 8>(c, n, m, index, rot),
        _ => indexed::cmla::<i32, 4>(c, n, m, index, rot),
    }
}

fn sqrdcmlah_indexed(
    size: Size,
    rot: Rotation,
    index: usize,
    c: [u8; 16],
    n: [u8; 16],
    m: [u8; 16],
) -> [u8; 16] {
    match size {
        Size::H => indexed::sqrdcmlah::<i16, 8>(c, n, m, index, rot),
        _ => indexed::sqrdcmlah::<i32, 4>(c, n, m, index, rot),
    }
}

// SQRDMLAH, or SQRDMLSH with `minus`.
fn by_element(
    size: Size,
    form: Form,
    index: usize,
    minus: bool,
    c: [u8; 16],
    n: [u8; 16],
    m: [u8; 16],
) -> Saturated {
    match size {
        Size::H => elements::<i16, 8>(c, n, m, index, form, minus),
        _ => elements::<i32, 4>(c, n, m, index, form, minus),
    }
}

// ---- cases

// The numbers that choose a kernel, and what it works.
#[derive(Clone, Copy)]
struct Case {
    family: u8,
    size: u8,
    turns: u8,
    index: u8,
    c: [u8; 16],
    n: [u8; 16],
    m: [u8; 16],
}

// What came of a case: the bytes, and of a family by element whether a lane clamped.
#[derive(Clone, Copy)]
struct Worked {
    bytes: [u8; 16],
    clamped: Option<bool>,
}

impl From<[u8; 16]> for Worked {
    fn from(bytes: [u8; 16]) -> Self {
        Worked {
            bytes,
            clamped: None,
        }
    }
}

impl From<Saturated> for Worked {
    fn from(saturated: Saturated) -> Self {
        let bytes = saturated.bytes;
        Worked {
            bytes,
            clamped: Some(saturated.clamped),
        }
    }
}

impl fmt::Display for Worked {
    fn fmt<W: fmt::Write>(&self, f: &mut fmt::Formatter<W>) -> fmt::Result {
        for b in &self.bytes {
            write!(f, "{b:02x}")?;
        }
        match self.clamped {
            None => Ok(()),
            Some(true) => write!(f, " 1"),
            Some(false) => write!(f, " 0"),
        }
    }
}

impl Case {
    fn read<R: Read>(input: &mut R) -> io::Result<Self> {
        let mut numbers = [0u8; 4];
        let mut c = [0u8; 16];
        let mut n = [0u8; 16];
        let mut m = [0u8; 16];
        input.read_exact(&mut numbers)?;
        input.read_exact(&mut c)?;
        input.read_exact(&mut n)?;
        input.read_exact(&mut m)?;
        let [family, size, turns, index] = numbers;
        Ok(Case {
            family,
            size,
            turns,
            index,
            c,
            n,
            m,
        })
    }

    fn work(self) -> Worked {
        let Case { c, n, m, .. } = self;
        let size = size_of(self.size);
        let rot = rotation_of(self.turns);
        let add_rot = add_rotation_of(self.turns);
        let form = form_of(self.turns);
        let index = usize::from(self.index);
        match self.family {
            0 => cadd(size, add_rot, c, m).into(),
            1 => sqcadd(size, add_rot, c, m).into(),
            2 => cmla(size, rot, c, n, m).into(),
            3 => cmla_indexed(size, rot, index, c, n, m).into(),
            4 => sqrdcmlah(size, rot, c, n, m).into(),
            5 => sqrdcmlah_indexed(size, rot, index, c, n, m).into(),
            6 => by_element(size, form, index, false, c, n, m).into(),
            7 => by_element(size, form, index, true, c, n, m).into(),
            _ => sqdmulh(size, c, m).into(),
        }
    }
}

// The input ends with the first case that is not whole.
fn main(rt: HostRuntime) -> io::Result<()> {
    let mut stdin = rt.stdin();
    for _ in 0..MOST {
        let Ok(case) = Case::read(&mut stdin) else {
            break;
        };
        let worked = case.work();
        println!(rt; "{worked}")?;
    }
    Ok(())
}
