// The marks of a state in its last 64 bytes: eight numbers of four bytes, then single bytes, and zeros. All zeros is the start.
ghost use Rattle.std.specs.Prelude.{◌≡◌, ◌∷◌, ◌++◌, ◌+◌, ◌*◌, ◌≤◌, length, take, replicate};
ghost use Rattle.trace.specs.Recorded.{four_of, fours_of};
ghost use Rattle.capi_stream.specs.Marks.{phase_number, said_number, said_byte, marks_numbers, marks_bytes};
ghost use Rattle.capi_stream.specs.Read.{phase_of, said_of, marks_of};

use codec::word_at;
use replay::contents::wide;
use replay::number::{verdict_kind, verdict_place};
use stream::number::end_number;
use stream::state::{Course, Marks, Phase, Standing};
use trace::types::{TraceRefusal, Verdict};

// The numbers come before the single bytes.
const NUMBERS: usize = 32;

fn phase_number(p: Phase) -> usize
    ensures { result ≡ phase_number p }
{
    match p {
        Phase::Contents => 0,
        Phase::Bodies => 1,
        Phase::Ended(end) => 2 + end_number(end) as usize,
    }
}

// The phase of a number; of one that no stream leaves, some phase.
fn phase_of(n: u32) -> Phase
    ensures { result ≡ phase_of n }
{
    match n {
        0 => Phase::Contents,
        1 => Phase::Bodies,
        2 => Phase::Ended(Ok(())),
        17 => Phase::Ended(Err(TraceRefusal::BadContents)),
        _ => Phase::Ended(Err(TraceRefusal::BadTotal)),
    }
}

fn said_number(v: Verdict) -> usize
    ensures { result ≡ said_number v }
{
    verdict_kind(v) as usize - 1
}

fn said_byte(v: Verdict) -> u8
    ensures { result ≡ said_byte v }
{
    match v {
        Verdict::FileDiffers(_, x) => x,
        _ => 0,
    }
}

// What is said by a number, a place and a byte; by those that no stream leaves, something.
fn said_of(n: u32, place: usize, byte: u8) -> Verdict
    ensures { result ≡ said_of n place byte }
{
    match n {
        0 => Verdict::Agrees,
        1 => Verdict::FileDiffers(place, byte),
        2 => Verdict::FlagDiffers,
        3 => Verdict::Outside(place),
        4 => Verdict::Reserved(place),
        _ => Verdict::BadFlag,
    }
}

pub fn marks_of(bytes: &[u8]) -> Marks
    requires { length bytes.now ≡ 64 }
    ensures { result ≡ marks_of bytes.now }
{
    Marks {
        phase: phase_of(word_at(bytes, 0)),
        cases: wide(word_at(bytes, 4)),
        case: wide(word_at(bytes, 8)),
        due: wide(word_at(bytes, 12)),
        course: Course {
            at: wide(word_at(bytes, 16)),
            held: [bytes[32], bytes[33], bytes[34], bytes[35]],
            standing: Standing {
                said: said_of(word_at(bytes, 20), wide(word_at(bytes, 24)), bytes[36]),
                qc: word_at(bytes, 28) == 1,
            },
        },
    }
}

// The numbers of the marks, in the order in which they are stored.
fn numbers(m: Marks) -> [usize; 8]
    ensures { result ≡ marks_numbers m }
{
    let standing = m.course.standing;
    [
        phase_number(m.phase),
        m.cases,
        m.case,
        m.due,
        m.course.at,
        said_number(standing.said),
        verdict_place(standing.said),
        standing.qc as usize,
    ]
}

// A number in four bytes, lowest first. What stands behind them may change.
fn put(bytes: &mut [u8], at: usize, n: usize)
    requires { at + 4 ≤ length bytes.old }
    ensures { take (at + 4) bytes.new ≡ take at bytes.old ++ four_of n }
{
    bytes[at] = (n % 256) as u8;
    bytes[at + 1] = (n / 256 % 256) as u8;
    bytes[at + 2] = (n / 65536 % 256) as u8;
    bytes[at + 3] = (n / 16777216 % 256) as u8;
}

fn put_numbers(bytes: &mut [u8], numbers: &[usize])
    requires { length bytes.old ≡ 4 * length numbers.now }
    ensures { bytes.new ≡ fours_of numbers.now }
{
    for i in 0..numbers.len() {
        put(bytes, i << 2, numbers[i]);
    }
}

// The bytes that are held of a number, the byte of a verdict, and zeros.
fn put_bytes(bytes: &mut [u8], held: [u8; 4], byte: u8)
    requires { length bytes.old ≡ 32 }
    ensures { bytes.new ≡ held ++ byte ∷ replicate 27 0 }
{
    bytes.fill(0);
    bytes[0] = held[0];
    bytes[1] = held[1];
    bytes[2] = held[2];
    bytes[3] = held[3];
    bytes[4] = byte;
}

pub fn store(bytes: &mut [u8], m: Marks)
    requires { length bytes.old ≡ 64 }
    ensures { bytes.new ≡ marks_bytes m }
{
    let all = numbers(m);
    put_numbers(&mut bytes[..NUMBERS], &all);
    put_bytes(
        &mut bytes[NUMBERS..],
        m.course.held,
        said_byte(m.course.standing.said),
    );
}
