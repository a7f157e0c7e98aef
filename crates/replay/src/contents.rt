// The table of contents, and the two calls: the check of a trace and the judgement of a case.
ghost use Rattle.std.specs.Prelude.{◌≡◌, ◌+◌, ◌*◌, ◌<◌, ◌≤◌};
ghost use Rattle.trace.specs.Trace.{body_size};
ghost use Rattle.trace.specs.Verdict.{case_of, accepted_of, judge_of};
ghost use Rattle.replay.specs.Extent.{body_end, entry_of, entries_of, count_of, Counted, CaseThere};

use crate::body::verdict;
use crate::reader::{Reader, number_at};
use codec::word_at;
use regfile::check::is_legal;
use trace::types::{CaseRefusal, TraceRefusal, Verdict};

// The longest trace: 64 KiB.
const LONGEST_TRACE: usize = 65536;

pub fn wide(x: u32) -> usize
    ensures { result ≡ x }
{
    x as usize
}

// Where the entry of case k stands; that of the case after the last is the end of the contents.
pub fn entry_place(k: usize) -> usize
    requires { k ≤ 1024 }
    ensures { result ≡ 4 + 12 * k }
{
    4 + (k << 3) + (k << 2)
}

pub fn body_size(l: usize, w: usize) -> usize
    requires { (l ≤ 2048) × (w ≤ 4096) }
    ensures { result ≡ body_size l w }
{
    8 + (l << 3) + (w << 2)
}

// The end of a body that starts at `due`, if its length, its word count and its start are allowed.
pub fn body_end(l: usize, w: usize, start: usize, due: usize) -> Option<usize>
    requires { due ≤ 0x400_0000 }
    ensures { result ≡ body_end l w start due }
{
    if is_legal(l) & ((w <= 4096) & (start == due)) {
        return Some(due + body_size(l, w));
    }
    None
}

// The end of the body of case k, if its entry is there and allowed: the body has to start at `due`.
fn entry(trace: &[u8], k: usize, due: usize) -> Option<usize>
    requires { (k < 1024) × (due ≤ 0x400_0000) }
    ensures { result ≡ entry_of trace.now k due }
{
    let mut numbers = Reader::new(trace, entry_place(k));
    let l = numbers.number()?;
    let w = numbers.number()?;
    let start = numbers.number()?;
    body_end(wide(l), wide(w), wide(start), due)
}

// The end of the last body, if all entries are there and allowed. `check` has read their number.
fn entries(trace: &[u8], cases: usize) -> Option<usize>
    requires { Counted trace.now cases }
    ensures { result ≡ entries_of trace.now }
{
    let mut due = entry_place(cases);
    for k in 0..cases {
        due = entry(trace, k, due)?;
    }
    Some(due)
}

// The number of cases, if it is there and allowed.
fn count(trace: &[u8]) -> Option<usize>
    ensures { result ≡ count_of trace.now }
{
    let cases = wide(number_at(trace, 0)?);
    if (1 <= cases) & (cases <= 1024) {
        return Some(cases);
    }
    None
}

// How many cases a trace has, or why it is refused.
pub fn check(trace: &[u8]) -> Result<usize, TraceRefusal>
    ensures { result ≡ accepted_of trace.now }
{
    let cases = count(trace).ok_or(TraceRefusal::BadContents)?;
    let total = entries(trace, cases).ok_or(TraceRefusal::BadContents)?;
    if (trace.len() <= LONGEST_TRACE) & (trace.len() == total) {
        return Ok(cases);
    }
    Err(TraceRefusal::BadTotal)
}

// The verdict of a case. `judge` has checked the trace and the number.
fn case_verdict(trace: &[u8], n: usize) -> Verdict
    requires { CaseThere trace.now n }
    ensures { result ≡ case_of trace.now n }
{
    let at = entry_place(n);
    let l = wide(word_at(trace, at));
    let w = wide(word_at(trace, at + 4));
    let start = wide(word_at(trace, at + 8));
    let end = start + body_size(l, w);
    verdict(l, w, &trace[start..end])
}

// The verdict of case n of a lent trace, or why there is none.
pub fn judge(trace: &[u8], n: usize) -> Result<Verdict, CaseRefusal>
    ensures { result ≡ judge_of trace.now n }
{
    let cases = check(trace)?;
    if cases <= n {
        return Err(CaseRefusal::NoCase);
    }
    Ok(case_verdict(trace, n))
}
