// Judges the cases of a trace, which is standard input, and prints a line for each.
// docs/replay.md has the lines.
#![tactic(auto)]

mod case;
mod contents;
mod fault;
mod name;
mod output;
mod pieces;
mod whole;

use crate::name::Name;
use crate::output::{Failure, Lines};
use crate::pieces::tell_pieces;
use crate::whole::tell_whole;
use std::io::{Read, Stdin};

// One byte more than a trace may have that is taken whole. It shows that the trace is longer.
const TRACE: usize = 65537;

// A file: what is longer than 65,536 bytes is taken in pieces.
fn tell_file(mut stdin: Stdin, lines: &mut Lines) -> Result<(), Failure> {
    let mut trace = [0u8; TRACE];
    let length = input::fill(&mut stdin, &mut trace)?;
    if length < TRACE {
        tell_whole(&trace[..length], lines)
    } else {
        let read = &trace[..];
        tell_pieces(read.chain(stdin), lines)
    }
}

fn main(rt: HostRuntime) {
    let name = Name::read();
    let mut lines = Lines::new(name.column(), rt.stdout());
    let told = if name.is_dash() {
        tell_pieces(rt.stdin(), &mut lines)
    } else {
        tell_file(rt.stdin(), &mut lines)
    };
    if let Err(failure) = told {
        let _ = eprintln!(rt; "kob replay: {failure}");
    }
    // A line that is lost may have been the last: then there is nothing to count.
    if told != Err(Failure::Unwritten) {
        lines.write_counts();
    }
}
