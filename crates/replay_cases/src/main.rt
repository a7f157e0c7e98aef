// Checks the stored traces of standard input, and prints what comes of each case asked for. A record begins with three little-endian numbers of 4 bytes: 1, 2 or 3, a and b.
// 1 puts the b bytes that follow into a buffer, from place a on. It has 65,600 bytes, zero at first, and lasts from record to record.
// 2 asks for case b of the trace that the first a bytes are, and prints the check's number and number of cases, and the judgement's number, kind, place and the byte that the run leaves there.
// 3 hands the same trace to a stream: a piece of b % 65,536 bytes, then pieces of b / 65,536 bytes, as far as there are so many, each behind an empty one. What a call does not take is handed in again.
// It prints the bytes taken, number, kind and place of each call that tells something, or takes not all; then the same of the calls behind: the number of an end, four numbers of a byte handed in, and the number of an end.
#![tactic(auto)]

use codec::word_at;
use replay::number::{accepted_cases, accepted_number, judged_kind, judged_number, judged_place};
use std::io;
use std::io::{Read, Stdin, Stdout};
use stream::State;
use stream::number::{end_number, told_kind, told_number, told_place};
use trace::types::{CaseRefusal, Told, TraceRefusal, Verdict};

// Nothing says that the input or the pieces of a trace end, so the loops count.
const MOST: usize = 100000;

// Of the buffer: some bytes more than the longest trace has.
const ROOM: usize = 65600;

// ---- printing

fn print_number(stdout: Stdout, n: usize) -> io::Result<()> {
    print!(stdout; "{n} ")
}

fn print_accepted(stdout: Stdout, accepted: Result<usize, TraceRefusal>) -> io::Result<()> {
    print_number(stdout, accepted_number(accepted) as usize)?;
    print_number(stdout, accepted_cases(accepted))
}

// The byte that the run leaves at a place that differs.
fn expected_byte(judged: Result<Verdict, CaseRefusal>) -> u8 {
    match judged {
        Ok(Verdict::FileDiffers(_, expected)) => expected,
        _ => 0,
    }
}

fn print_judged(stdout: Stdout, judged: Result<Verdict, CaseRefusal>) -> io::Result<()> {
    print_number(stdout, judged_number(judged) as usize)?;
    print_number(stdout, judged_kind(judged) as usize)?;
    print_number(stdout, judged_place(judged))?;
    println!(stdout; "{}", expected_byte(judged))
}

// ---- streams

// The bytes taken, whether there is more to hand in, and the stream.
#[derive(Clone, Copy)]
struct Course {
    at: usize,
    live: bool,
    state: State,
}

fn print_told(stdout: Stdout, taken: usize, told: Told) -> io::Result<()> {
    print_number(stdout, taken)?;
    print_number(stdout, told_number(told) as usize)?;
    print_number(stdout, told_kind(told) as usize)?;
    print_number(stdout, told_place(told))
}

// A call that tells nothing and takes all is not printed.
fn print_fed(stdout: Stdout, given: usize, taken: usize, told: Told) -> io::Result<()> {
    if told == Told::Nothing && taken == given {
        return Ok(());
    }
    print_told(stdout, taken, told)
}

fn print_empty(stdout: Stdout, state: State) -> io::Result<State> {
    let fed = state.feed(b"");
    print_fed(stdout, 0, fed.taken, fed.told)?;
    Ok(fed.state)
}

// An empty piece, and one of so many bytes or those that are left.
fn hand_in(stdout: Stdout, trace: &[u8], size: usize, course: Course) -> io::Result<Course> {
    let at = course.at;
    let state = print_empty(stdout, course.state)?;
    if trace.len() < at {
        return Ok(Course {
            at,
            live: false,
            state,
        });
    }
    let left = trace.len() - at;
    let given = size.min(left);
    let fed = state.feed(&trace[at..at + given]);
    let taken = fed.taken.min(left);
    print_fed(stdout, given, fed.taken, fed.told)?;
    Ok(Course {
        at: at + taken,
        live: taken < left && !matches!(fed.told, Told::Over(_)),
        state: fed.state,
    })
}

fn print_end(stdout: Stdout, state: State) -> io::Result<State> {
    let closed = state.end();
    print_number(stdout, end_number(closed.end) as usize)?;
    Ok(closed.state)
}

// An end, and a byte and an end behind it.
fn print_ends(stdout: Stdout, state: State) -> io::Result<()> {
    let ended = print_end(stdout, state)?;
    let fed = ended.feed(b"\x01");
    print_told(stdout, fed.taken, fed.told)?;
    println!(stdout; "{}", end_number(fed.state.end().end))
}

fn print_stream(stdout: Stdout, trace: &[u8], first: usize, step: usize) -> io::Result<()> {
    let start = Course {
        at: 0,
        live: true,
        state: State::new(),
    };
    let mut course = hand_in(stdout, trace, first, start)?;
    for _ in 0..MOST {
        if !course.live {
            break;
        }
        course = hand_in(stdout, trace, step, course)?;
    }
    print_ends(stdout, course.state)
}

// ---- records

fn put(mut stdin: Stdin, buffer: &mut [u8], at: usize, size: usize) -> bool {
    if buffer.len() < at {
        return false;
    }
    if buffer.len() - at < size {
        return false;
    }
    let end = at + size;
    stdin.read_exact(&mut buffer[at..end]).is_ok()
}

fn print_case(stdout: Stdout, trace: &[u8], n: usize) -> io::Result<()> {
    print_accepted(stdout, replay::check(trace))?;
    print_judged(stdout, replay::judge(trace, n))
}

fn ask(stdout: Stdout, buffer: &[u8], size: usize, n: usize) -> io::Result<bool> {
    if buffer.len() < size {
        return Ok(false);
    }
    print_case(stdout, &buffer[0..size], n)?;
    Ok(true)
}

fn hand(stdout: Stdout, buffer: &[u8], size: usize, cut: usize) -> io::Result<bool> {
    if buffer.len() < size {
        return Ok(false);
    }
    print_stream(stdout, &buffer[0..size], cut % 65536, cut / 65536)?;
    Ok(true)
}

fn work(
    stdin: Stdin,
    stdout: Stdout,
    kind: u32,
    a: usize,
    b: usize,
    buffer: &mut [u8; ROOM],
) -> io::Result<bool> {
    match kind {
        1 => Ok(put(stdin, buffer, a, b)),
        2 => ask(stdout, buffer, a, b),
        3 => hand(stdout, buffer, a, b),
        _ => Ok(false),
    }
}

fn work_record(mut stdin: Stdin, stdout: Stdout, buffer: &mut [u8; ROOM]) -> io::Result<bool> {
    let mut head = [0u8; 12];
    if stdin.read_exact(&mut head).is_err() {
        return Ok(false);
    }
    work(
        stdin,
        stdout,
        word_at(&head, 0),
        word_at(&head, 4) as usize,
        word_at(&head, 8) as usize,
        buffer,
    )
}

fn main(rt: HostRuntime) -> io::Result<()> {
    let mut buffer = [0u8; ROOM];
    for _ in 0..MOST {
        if !work_record(rt.stdin(), rt.stdout(), &mut buffer)? {
            break;
        }
    }
    Ok(())
}
