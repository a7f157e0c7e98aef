// What can be wrong with a trace.
use crate::contents::entry_place;
use std::fmt;

// Behind the number of a case is what its entry says.
#[derive(Clone, Copy)]
pub enum Fault {
    // The length of the trace.
    NoCount(usize),
    // The number of cases.
    Count(u32),
    // The number of cases, and the length of the trace.
    CutShort(u32, usize),
    Length(u32, u32),
    Words(u32, u32),
    // And where the body is due.
    Start(u32, u32, usize),
    // The length that the contents say, and that of the trace.
    Total(usize, usize),
    // The contents say this length, and there is a byte more.
    More(usize),
    // The trace ends inside the body of a case, or before it: the bytes that the body takes, and those that came.
    Body(u32, usize, usize),
}

const LENGTHS: &str = "128, 256, 512, 1024 and 2048 are allowed";

impl fmt::Display for Fault {
    fn fmt<W: fmt::Write>(&self, f: &mut fmt::Formatter<W>) -> fmt::Result {
        match *self {
            Fault::NoCount(size) => {
                write!(f, "the number of cases takes 4 bytes, the trace has {size}")
            }
            Fault::Count(cases) => write!(f, "cases {cases}: 1 to 1024 are allowed"),
            Fault::CutShort(cases, size) => {
                let takes = entry_place(cases);
                write!(
                    f,
                    "cases {cases}: the contents take {takes} bytes, the trace has {size}"
                )
            }
            Fault::Length(k, bits) => write!(f, "case {k}: length {bits}: {LENGTHS}"),
            Fault::Words(k, words) => write!(f, "case {k}: words {words}: 0 to 4096 are allowed"),
            Fault::Start(0, start, due) => {
                write!(f, "case 0: start {start}: the contents end at {due}")
            }
            Fault::Start(k, start, due) => {
                write!(
                    f,
                    "case {k}: start {start}: the body before it ends at {due}"
                )
            }
            Fault::Total(due, size) => {
                write!(f, "the contents say {due} bytes, the trace has {size}")
            }
            Fault::More(due) => write!(f, "the contents say {due} bytes, the trace has more"),
            Fault::Body(k, takes, came) => {
                write!(
                    f,
                    "case {k}: the body takes {takes} bytes, {came} of them came"
                )
            }
        }
    }
}

// The line on a trace that is refused: the refusal's number, and what is wrong.
#[derive(Clone, Copy)]
pub struct RefusalLine {
    pub number: u8,
    pub fault: Fault,
}

impl fmt::Display for RefusalLine {
    fn fmt<W: fmt::Write>(&self, f: &mut fmt::Formatter<W>) -> fmt::Result {
        let number = self.number;
        let fault = self.fault;
        write!(f, "refused\t{number}\t{fault}")
    }
}
