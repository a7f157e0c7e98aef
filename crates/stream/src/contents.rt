// Bytes of the table of contents.
ghost use Rattle.std.specs.Prelude.{◌≡◌, ◌+◌, ◌*◌, ◌%◌, ◌<◌, ◌≤◌, length};
ghost use Rattle.stream.specs.Contents.{listed_on, count_on, opened_on, start_on, number_on};
ghost use Rattle.stream.specs.Steps.{Lists};

use crate::bytes::with_byte;
use crate::state::{Course, Marks, Phase, Stepped};
use codec::word_at;
use regfile::check::is_legal;
use replay::contents::{body_end, entry_place, wide};
use trace::types::{Told, TraceRefusal};

// The contents end at or before this byte: 1,024 entries of 12 bytes behind the number of cases.
const LONGEST_CONTENTS: usize = 12292;

// No body of allowed contents starts behind this byte.
const LAST_START: usize = 0x400_0000;

// A byte that brings nothing, and the contents go on.
fn on(cases: usize, due: usize, at: usize, held: [u8; 4]) -> Stepped
    ensures { result ≡ listed_on cases due at held }
{
    Stepped {
        taken: 1,
        told: Told::Nothing,
        marks: Marks {
            phase: Phase::Contents,
            cases,
            case: 0,
            due,
            course: Course::new(at, held),
        },
    }
}

// The last byte of the contents; the last body ends at `end`.
fn opened(cases: usize, end: usize) -> Stepped
    ensures { result ≡ opened_on cases end }
{
    Stepped {
        taken: 1,
        told: Told::Nothing,
        marks: Marks {
            phase: Phase::Bodies,
            cases,
            case: 0,
            due: end,
            course: Course::fresh(),
        },
    }
}

// Byte `at` of the number of cases, which is held with those before it.
fn count_byte(at: usize, held: [u8; 4]) -> Stepped
    requires { at < 4 }
    ensures { result ≡ count_on at held }
{
    if at < 3 {
        return on(0, 0, at + 1, held);
    }
    let n = wide(word_at(&held, 0));
    if (1 <= n) & (n <= 1024) {
        return on(n, entry_place(n), 4, [0u8; 4]);
    }
    Stepped::refused(Err(TraceRefusal::BadContents))
}

// The start of a body, which is whole with byte `at` of the contents. No stream leaves such a count or such a sum: the test keeps sums in range.
fn start_number(contents: &[u8], cases: usize, due: usize, at: usize, start: usize) -> Stepped
    requires { (length contents.now ≡ 12288) × (15 ≤ at) × (at < 12292) }
    ensures { result ≡ start_on contents.now cases due at start }
{
    if (1024 < cases) | (LAST_START < due) {
        return Stepped::refused(Err(TraceRefusal::BadContents));
    }
    let l = wide(word_at(contents, at - 15));
    let w = wide(word_at(contents, at - 11));
    let Some(end) = body_end(l, w, start, due) else {
        return Stepped::refused(Err(TraceRefusal::BadContents));
    };
    if at + 1 == entry_place(cases) {
        return opened(cases, end);
    }
    on(cases, end, at + 1, [0u8; 4])
}

// A number of an entry, which is whole with byte `at` of the contents: a length, a word count or a start.
fn entry_number(contents: &[u8], cases: usize, due: usize, at: usize) -> Stepped
    requires { (length contents.now ≡ 12288) × (7 ≤ at) × (at < 12292) }
    ensures { result ≡ number_on contents.now cases due at }
{
    let n = wide(word_at(contents, at - 7));
    let column = (at - 4) % 12;
    if column == 11 {
        return start_number(contents, cases, due, at, n);
    }
    if (is_legal(n) & (column == 3)) | ((n <= 4096) & (column == 7)) {
        return on(cases, due, at + 1, [0u8; 4]);
    }
    Stepped::refused(Err(TraceRefusal::BadContents))
}

// A byte of the contents.
pub fn contents_byte(contents: &mut [u8], m: Marks, b: u8) -> Stepped
    requires { length contents.old ≡ 12288 }
    ensures { (result.taken ≡ 1) × Lists contents.old m b result contents.new }
{
    let at = m.course.at;
    let held = m.course.held;
    if at < 4 {
        return count_byte(at, with_byte(held, at, b));
    }
    if LONGEST_CONTENTS <= at {
        // No stream leaves this.
        return Stepped::refused(Err(TraceRefusal::BadContents));
    }
    contents[at - 4] = b;
    if at % 4 == 3 {
        return entry_number(contents, m.cases, m.due, at);
    }
    on(m.cases, m.due, at + 1, [0u8; 4])
}
