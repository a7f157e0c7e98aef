// A trace that comes in pieces, however they are cut. Each line is written when its verdict falls due.
//
// Beside the state of the stream it holds the bytes of the part at hand, which is the table of contents or the body of
// a case: a line tells some of them. No more is read than the part at hand lacks, so that a call takes all that it is
// handed, unless it is refused.
ghost use Rattle.std.specs.Prelude.{◌≤◌, length};

use crate::case::CaseLine;
use crate::contents::{Case, count_of, entry_place, first_fault};
use crate::fault::{Fault, RefusalLine};
use crate::output::{Failure, Lines};
use std::fmt;
use std::io::Read;
use stream::State;
use stream::number::end_number;
use stream::state::Phase;
use trace::types::{Told, TraceRefusal, Verdict};

// The longest body, of 2,048 bits and 4,096 words. The contents are shorter.
const PART: usize = 32776;

// The longest trace has 33,574,916 bytes: contents of 1,024 cases, and as many of the longest bodies. A byte too many or the end comes behind it.
const MOST: usize = 33574918;

// Bytes from one line on the progress to the next.
const MEBIBYTE: usize = 1048576;

// ---- the part at hand

// The case whose body comes.
fn case_at_hand(state: &State) -> Case {
    Case::listed(&state.contents, count_of(state.marks.case))
}

// The bytes of the part at hand: the number of cases, all of the contents, a body, and 1 behind the last, which would be too many.
fn part_size(state: &State) -> usize {
    let marks = state.marks;
    match marks.phase {
        Phase::Contents if marks.course.at < 4 => 4,
        Phase::Contents => entry_place(count_of(marks.cases)),
        _ if marks.cases <= marks.case => 1,
        _ => case_at_hand(state).body_size(),
    }
}

// What is wrong, where the part at hand has come so far: with the trace's end, or with one of its bytes.
fn fault(part: &[u8], ended: bool, state: &State) -> Fault {
    let marks = state.marks;
    match marks.phase {
        Phase::Contents => first_fault(part, ended),
        _ if ended => Fault::Body(count_of(marks.case), part_size(state), part.len()),
        _ => Fault::More(marks.due),
    }
}

// ---- what is told

// How many cases are done, of how many, and where the last ends.
#[derive(Clone, Copy)]
struct Progress {
    done: u32,
    cases: u32,
    bytes: usize,
}

impl fmt::Display for Progress {
    fn fmt<W: fmt::Write>(&self, f: &mut fmt::Formatter<W>) -> fmt::Result {
        let Progress { done, cases, bytes } = *self;
        write!(f, "{done} of {cases} cases, {bytes} bytes")
    }
}

// The line of the case at hand, and the progress where its body ends in another mebibyte than it starts in.
fn tell_case(
    body: &[u8],
    state: &State,
    verdict: Verdict,
    lines: &mut Lines,
) -> Result<(), Failure> {
    let number = count_of(state.marks.case);
    let case = case_at_hand(state);
    let line = CaseLine {
        number,
        case,
        body,
        verdict,
    };
    lines.tell_case(&line, verdict)?;
    let end = case.end_place();
    if (case.start as usize / MEBIBYTE) < end / MEBIBYTE {
        lines.tell_progress(&Progress {
            done: number.saturating_add(1),
            cases: count_of(state.marks.cases),
            bytes: end,
        });
    }
    Ok(())
}

fn tell_refusal(
    part: &[u8],
    ended: bool,
    state: &State,
    end: Result<(), TraceRefusal>,
    lines: &mut Lines,
) -> Result<(), Failure> {
    lines.tell_refusal(&RefusalLine {
        number: end_number(end),
        fault: fault(part, ended, state),
    })
}

// At the end of the input.
fn tell_end(part: &[u8], state: State, lines: &mut Lines) -> Result<(), Failure> {
    match state.end().end {
        Ok(()) => Ok(()),
        refused => tell_refusal(part, true, &state, refused, lines),
    }
}

// What the bytes of the part from `at` on bring; no state where the trace is over.
fn take(part: &[u8], at: usize, state: State, lines: &mut Lines) -> Result<Option<State>, Failure>
    requires { at ≤ length part.now }
{
    let fed = state.feed(&part[at..]);
    match fed.told {
        Told::Nothing => {}
        Told::Case(verdict) => tell_case(part, &state, verdict, lines)?,
        Told::Over(end) => {
            tell_refusal(part, false, &state, end, lines)?;
            return Ok(None);
        }
    }
    Ok(Some(fed.state))
}

// Reads some of the part at hand, and tells what it brings; no state where the trace is over.
fn go_on<R: Read>(
    input: &mut R,
    held: &mut [u8],
    state: State,
    lines: &mut Lines,
) -> Result<Option<State>, Failure> {
    let at = state.marks.course.at;
    let end = part_size(&state).min(held.len());
    if end <= at {
        // Not reached: no part is longer than the buffer, and behind its end stands the next.
        return Ok(None);
    }
    let n = input::read_some(input, &mut held[at..end])?;
    if n == 0 {
        tell_end(&held[..at], state, lines)?;
        return Ok(None);
    }
    let so_far = at + n;
    take(&held[..so_far], at, state, lines)
}

// The lines of a trace. Not put in where it is called, so that a trace that is taken whole needs no room on the stack for pieces and a state.
#[inline(never)]
pub fn tell_pieces<R: Read + Drop>(mut input: R, lines: &mut Lines) -> Result<(), Failure> {
    let mut held = [0u8; PART];
    let mut state = State::new();
    // Nothing says that the input ends, so the loop counts. Each time there is a byte or the end.
    for _ in 0..MOST {
        let Some(next) = go_on(&mut input, &mut held, state, lines)? else {
            break;
        };
        state = next;
    }
    Ok(())
}
