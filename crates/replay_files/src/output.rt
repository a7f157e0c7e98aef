// What is written: the lines on a trace, and beside them the progress, the counts, and what failed.
use input::ReadError;
use std::fmt;
use std::fmt::{Display, Write};
use std::io::{Error, Stdout};
use text::Text;
use trace::types::Verdict;

// Room for the longest line: a name of 4,096 bytes and some columns.
const LINE: usize = 4608;

// Room for three numbers.
const COUNTS: usize = 64;

// Where the counts go. Only the kit's `io` writes to a descriptor by its number.
const COUNTS_FILENO: i32 = 4;

// Where the progress goes. It has a descriptor of its own, since whatever stands on standard error is a fault.
const PROGRESS_FILENO: i32 = 6;

// Why a trace's lines end early.
#[derive(Clone, Copy, Debug, PartialEq, Eq)]
pub enum Failure {
    // The lines before it stand, and are counted.
    Unread,
    Unwritten,
}

impl Display for Failure {
    fn fmt<W: fmt::Write>(&self, f: &mut fmt::Formatter<W>) -> fmt::Result {
        f.write_str(match self {
            Failure::Unread => "the input could not be read",
            Failure::Unwritten => "the output could not be written",
        })
    }
}

impl From<ReadError> for Failure {
    fn from(_: ReadError) -> Self {
        Failure::Unread
    }
}

// Of one read of the input.
impl From<Error> for Failure {
    fn from(_: Error) -> Self {
        Failure::Unread
    }
}

// The lines on a trace, each of which begins with its name, and what they tell: how many cases were judged, how many
// agree, and 1 for a trace that was refused.
#[derive(Drop)]
pub struct Lines {
    line: Text<LINE>,
    start: usize,
    stdout: Stdout,
    cases: u32,
    agree: u32,
    refused: u32,
}

impl Lines {
    // The line begins with what stands there.
    pub fn new(line: Text<LINE>, stdout: Stdout) -> Self {
        let start = line.len();
        Lines {
            line,
            start,
            stdout,
            cases: 0,
            agree: 0,
            refused: 0,
        }
    }

    // In one piece, so that no other output comes between.
    fn put<D: Display>(&mut self, value: &D) {
        self.line.truncate(self.start);
        let _ = writeln!(self.line, "{value}");
    }

    fn tell<D: Display>(&mut self, value: &D) -> Result<(), Failure> {
        self.put(value);
        self.stdout
            .write_all(self.line.as_bytes())
            .map_err(|_| Failure::Unwritten)
    }

    pub fn tell_case<D: Display>(&mut self, line: &D, verdict: Verdict) -> Result<(), Failure> {
        self.tell(line)?;
        self.cases = self.cases.saturating_add(1);
        if let Verdict::Agrees = verdict {
            self.agree = self.agree.saturating_add(1);
        }
        Ok(())
    }

    pub fn tell_refusal<D: Display>(&mut self, line: &D) -> Result<(), Failure> {
        self.tell(line)?;
        self.refused = 1;
        Ok(())
    }

    // A line on how far a trace has come. It may be lost.
    pub fn tell_progress<D: Display>(&mut self, progress: &D) {
        self.put(progress);
        io::write_all(PROGRESS_FILENO, self.line.as_bytes());
    }

    pub fn write_counts(&self) {
        let cases = self.cases;
        let agree = self.agree;
        let refused = self.refused;
        let mut counts = Text::<COUNTS>::new();
        let _ = writeln!(counts, "{cases} {agree} {refused}");
        io::write_all(COUNTS_FILENO, counts.as_bytes());
    }
}
