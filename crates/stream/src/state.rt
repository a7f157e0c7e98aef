// The state of a stream. It is handed on by value, and nothing else is held between two calls.
ghost use Rattle.std.specs.Prelude.{◌≡◌, Err};
ghost use Rattle.trace.specs.declared.types.Told.{Told};
ghost use Rattle.trace.specs.Stream.{start};
ghost use Rattle.stream.specs.Kept.{course_at, fresh_course, ended_marks, Keeps, Feeds, Closes};

use crate::feed::{close, feed};
use trace::types::{Told, TraceRefusal, Verdict};

// The image, which holds the longest file, comes before the contents where both are held together.
pub const IMAGE: usize = 8192;

pub const HELD: usize = 20480;

// What comes next: the table of contents, bodies, or nothing more.
#[derive(Clone, Copy)]
pub enum Phase {
    Contents,
    Bodies,
    Ended(Result<(), TraceRefusal>),
}

// How a case stands: what is said of it, which is that it agrees until something else is known, and the flag QC of its run.
#[derive(Clone, Copy)]
pub struct Standing {
    pub said: Verdict,
    pub qc: bool,
}

// How far the contents or a body have come: the bytes so far, those of a number that is not whole yet, with zeros behind them, and the case.
#[derive(Clone, Copy)]
pub struct Course {
    pub at: usize,
    pub held: [u8; 4],
    pub standing: Standing,
}

// All of a state but its arrays.
#[derive(Clone, Copy)]
pub struct Marks {
    pub phase: Phase,
    // How many there are, and the one whose body comes; 0 before it is known.
    pub cases: usize,
    pub case: usize,
    // Where the next body has to start; the end of the last where all are listed.
    pub due: usize,
    pub course: Course,
}

// The file of the case at hand, the entries of the contents, and zeros behind both.
#[derive(Clone, Copy)]
pub struct State {
    pub image: [u8; 8192],
    pub contents: [u8; 12288],
    pub marks: Marks,
}

// What some bytes bring: how many are taken, what is told, and the marks behind them.
#[derive(Clone, Copy)]
pub struct Stepped {
    pub taken: usize,
    pub told: Told,
    pub marks: Marks,
}

// What a call with some bytes took and tells, and the state behind it.
#[derive(Clone, Copy)]
pub struct Fed {
    pub taken: usize,
    pub told: Told,
    pub state: State,
}

// What a call at the end tells, and the state behind it.
#[derive(Clone, Copy)]
pub struct Closed {
    pub end: Result<(), TraceRefusal>,
    pub state: State,
}

impl Course {
    // Behind `at` bytes, of which those of a number are held. Nothing is known of a case.
    pub fn new(at: usize, held: [u8; 4]) -> Self
        ensures { result ≡ course_at at held }
    {
        Course {
            at,
            held,
            standing: Standing {
                said: Verdict::Agrees,
                qc: false,
            },
        }
    }

    // Of a part of which no byte has come.
    pub fn fresh() -> Self
        ensures { result ≡ fresh_course }
    {
        Course::new(0, [0u8; 4])
    }
}

impl Marks {
    // Of a stream that is over.
    pub fn ended(end: Result<(), TraceRefusal>) -> Self
        ensures { result ≡ ended_marks end }
    {
        Marks {
            phase: Phase::Ended(end),
            cases: 0,
            case: 0,
            due: 0,
            course: Course::fresh(),
        }
    }
}

impl Stepped {
    // One byte, and the stream is over.
    pub fn refused(end: Result<(), TraceRefusal>) -> Self
        ensures { result ≡ record { taken = 1; told = Told.Over end; marks = ended_marks end } }
    {
        Stepped {
            taken: 1,
            told: Told::Over(end),
            marks: Marks::ended(end),
        }
    }
}

impl State {
    // The state before the first byte.
    pub fn new() -> Self
        ensures { Keeps result start }
    {
        State {
            image: [0u8; 8192],
            contents: [0u8; 12288],
            marks: Marks {
                phase: Phase::Contents,
                cases: 0,
                case: 0,
                due: 0,
                course: Course::fresh(),
            },
        }
    }

    // Takes bytes up to and with the first that brings a verdict or a refusal, else all.
    pub fn feed(self, bytes: &[u8]) -> Fed
        ensures { Feeds self bytes.now result }
    {
        let mut image = self.image;
        let mut contents = self.contents;
        let mut held = [0u8; HELD];
        held[..IMAGE].copy_from_slice(&image);
        held[IMAGE..].copy_from_slice(&contents);
        let stepped = feed(&mut held, self.marks, bytes);
        image.copy_from_slice(&held[..IMAGE]);
        contents.copy_from_slice(&held[IMAGE..]);
        Fed {
            taken: stepped.taken,
            told: stepped.told,
            state: State {
                image,
                contents,
                marks: stepped.marks,
            },
        }
    }

    // Says that the line has ended.
    pub fn end(self) -> Closed
        ensures { Closes self result }
    {
        let end = close(self.marks);
        Closed {
            end,
            state: State {
                image: [0u8; 8192],
                contents: [0u8; 12288],
                marks: Marks::ended(end),
            },
        }
    }
}
