// Reads a length, a flag, words and registers as text, runs the words, and prints what came of them.
// docs/execute.md has the format.
#![tactic(auto)]

mod fault;
mod file;
mod line;
mod report;
mod request;

use crate::fault::Refusal;
use crate::report::Report;
use crate::request::read_text;
use input::ReadError;
use std::fmt;
use std::fmt::Write;
use std::io::Stdin;
use text::Text;

// The longest text.
const MOST_TEXT: usize = 65536;

// One byte more, which shows that a text is longer.
const TEXT: usize = 65537;

// Room for the longest report: 32 lines of 512 lanes of up to 5 characters, and some lines.
const OUT: usize = 98304;

// Why there is no report.
#[derive(Clone, Copy)]
enum Failure<'a> {
    Unread,
    TooLong,
    Refused(Refusal<'a>),
    Unwritten,
}

impl fmt::Display for Failure<'_> {
    fn fmt<W: fmt::Write>(&self, f: &mut fmt::Formatter<W>) -> fmt::Result {
        match self {
            Failure::Unread => write!(f, "the input could not be read"),
            Failure::TooLong => write!(f, "the input is longer than {MOST_TEXT} bytes"),
            Failure::Refused(refusal) => write!(f, "{refusal}"),
            Failure::Unwritten => write!(f, "the output could not be written"),
        }
    }
}

impl From<ReadError> for Failure<'_> {
    fn from(_: ReadError) -> Self {
        Failure::Unread
    }
}

impl<'a> From<Refusal<'a>> for Failure<'a> {
    fn from(refusal: Refusal<'a>) -> Self {
        Failure::Refused(refusal)
    }
}

fn read<'a>(mut stdin: Stdin, buffer: &'a mut [u8]) -> Result<&'a [u8], Failure<'a>> {
    let length = input::fill(&mut stdin, buffer)?;
    if length > MOST_TEXT {
        return Err(Failure::TooLong);
    }
    Ok(&buffer[..length])
}

// In one piece, so that a reader of its first line alone closes the pipe behind all of it.
#[inline(never)]
fn write_report(report: &Report, stdout: &impl Print) -> Result<(), Failure<'static>> {
    let mut out = Text::<OUT>::new();
    let _ = write!(out, "{report}");
    stdout
        .write_all(out.as_bytes())
        .map_err(|_| Failure::Unwritten)
}

fn execute<'a>(stdin: Stdin, stdout: &impl Print, buffer: &'a mut [u8]) -> Result<(), Failure<'a>> {
    let mut request = read_text(read(stdin, buffer)?)?;
    let before = request.file;
    let ran = exec::run(
        request.file.bits(),
        request.file.lent(),
        request.qc,
        request.words.as_slice(),
    );
    let report = Report {
        request: &request,
        before: &before,
        ran,
    };
    write_report(&report, stdout)
}

fn main(rt: HostRuntime) {
    let mut buffer = [0u8; TEXT];
    if let Err(failure) = execute(rt.stdin(), &rt.stdout(), &mut buffer) {
        let _ = eprintln!(rt; "kob run: {failure}");
    }
}
