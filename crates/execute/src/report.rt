// What a run came to, as text.
ghost use Rattle.std.specs.Prelude.{◌<◌};

use crate::file::File;
use crate::request::Request;
use isa::types::{Ending, Ran, Size};
use std::fmt;

// What the answers mean.
fn meaning(ending: Ending) -> &'static str {
    match ending {
        Ending::Done => "done",
        Ending::BadLength => "length not a multiple of 128 from 128 to 2,048",
        Ending::NotPowerOfTwo => "length not a power of two",
        Ending::BadSize => "file not 4 x L bytes",
        Ending::TooLong => "more than 4,096 words",
        Ending::Outside => "word outside the set",
        Ending::Reserved => "reserved word",
    }
}

// ---- registers

// The bytes of a lane.
fn width_of(size: Size) -> usize
    ensures { 0 < result }
{
    match size {
        Size::B => 1,
        Size::H => 2,
        Size::S => 4,
        Size::D => 8,
    }
}

// A lane's value in two's complement.
fn value_of(lane: &[u8]) -> i64 {
    let sign = match lane.last() {
        Some(128..) => -1,
        _ => 0,
    };
    lane.iter()
        .rev()
        .fold(sign, |value, b| value << 8 | i64::from(*b))
}

// A register's line: its lanes, or where no size is given its bytes, with a space before every 16.
#[derive(Clone, Copy)]
struct Register<'a> {
    number: usize,
    bytes: &'a [u8],
    lanes: Option<Size>,
}

impl fmt::Display for Register<'_> {
    fn fmt<W: fmt::Write>(&self, f: &mut fmt::Formatter<W>) -> fmt::Result {
        let number = self.number;
        write!(f, "z{number}")?;
        match self.lanes {
            Some(size) => put_lanes(f, self.bytes, width_of(size))?,
            None => put_bytes(f, self.bytes)?,
        }
        writeln!(f)
    }
}

fn put_lanes<W: fmt::Write>(f: &mut fmt::Formatter<W>, bytes: &[u8], width: usize) -> fmt::Result
    requires { 0 < width }
{
    for lane in bytes.chunks_exact(width) {
        let value = value_of(lane);
        write!(f, " {value}")?;
    }
    Ok(())
}

fn put_bytes<W: fmt::Write>(f: &mut fmt::Formatter<W>, bytes: &[u8]) -> fmt::Result {
    for (i, b) in bytes.iter().enumerate() {
        if i % 16 == 0 {
            write!(f, " ")?;
        }
        write!(f, "{b:02X}")?;
    }
    Ok(())
}

// ---- the run

// The whole report: what was asked for, with the registers as the run left them, those before it, and the answer.
#[derive(Clone, Copy)]
pub struct Report<'a> {
    pub request: &'a Request,
    pub before: &'a File,
    pub ran: Ran,
}

impl Report<'_> {
    // The word that ended the run, and its place.
    fn put_place<W: fmt::Write>(&self, f: &mut fmt::Formatter<W>) -> fmt::Result {
        let place = self.ran.done;
        match (self.ran.ending, self.request.words.get(place)) {
            (Ending::Outside | Ending::Reserved, Some(word)) => {
                writeln!(f, "at word {place} {word:08X}")
            }
            _ => Ok(()),
        }
    }

    // The registers that changed or are asked for.
    fn put_registers<W: fmt::Write>(&self, f: &mut fmt::Formatter<W>) -> fmt::Result {
        for number in 0..32 {
            let bytes = self.request.file.register(number);
            if self.request.is_shown(number) || bytes != self.before.register(number) {
                let lanes = self.request.lanes;
                let register = Register {
                    number,
                    bytes,
                    lanes,
                };
                write!(f, "{register}")?;
            }
        }
        Ok(())
    }
}

impl fmt::Display for Report<'_> {
    fn fmt<W: fmt::Write>(&self, f: &mut fmt::Formatter<W>) -> fmt::Result {
        let ending = self.ran.ending;
        let answer = exec::ending_number(ending);
        let meaning = meaning(ending);
        let done = self.ran.done;
        let qc = u8::from(self.ran.qc);
        writeln!(f, "answer {answer} {meaning}")?;
        writeln!(f, "words done {done}\nqc {qc}")?;
        self.put_place(f)?;
        self.put_registers(f)
    }
}
