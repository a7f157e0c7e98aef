// What the contents of a trace say of a case, and what is wrong with them.
ghost use Rattle.std.specs.Prelude.{◌≡◌, ◌+◌, ◌*◌, ◌<◌, ◌≤◌};

use crate::fault::Fault;
use replay::reader::number_at;

// An entry of the contents: the length in bits, the number of words, and the start of the body.
#[derive(Clone, Copy)]
pub struct Case {
    pub bits: u32,
    pub words: u32,
    pub start: u32,
}

// The number at a place, and 0 past the end.
pub fn number_or_zero(bytes: &[u8], at: usize) -> u32 {
    number_at(bytes, at).unwrap_or(0)
}

// A number of cases, of which no trace has more than 1,024.
pub fn count_of(cases: usize) -> u32 {
    u32::try_from(cases).unwrap_or(u32::MAX)
}

// Where the entry of case k stands in a trace. That of the case after the last would stand where the contents end.
pub fn entry_place(k: u32) -> usize
    ensures { result ≡ 4 + 12 * k }
{
    let n = k as usize;
    4 + (n << 3) + (n << 2)
}

impl Case {
    // The entry at a place.
    fn at(bytes: &[u8], at: usize) -> Self
        requires { at < 1099511627776 }
    {
        Case {
            bits: number_or_zero(bytes, at),
            words: number_or_zero(bytes, at + 4),
            start: number_or_zero(bytes, at + 8),
        }
    }

    // Case k of a trace.
    pub fn of_trace(trace: &[u8], k: u32) -> Self {
        Case::at(trace, entry_place(k))
    }

    // The same where the entries stand alone, without the number of cases before them.
    pub fn listed(entries: &[u8], k: u32) -> Self {
        Case::at(entries, entry_place(k) - 4)
    }

    // Where its words stand in the body.
    pub fn words_place(self) -> usize
        ensures { result ≤ 17179869184 }
    {
        4 + ((self.bits as usize) << 2)
    }

    // Where the flag after stands in the body.
    pub fn after_place(self) -> usize
        ensures { result < 1099511627776 }
    {
        self.words_place() + ((self.words as usize) << 2)
    }

    pub fn body_size(self) -> usize
        ensures { result < 1099511627776 }
    {
        let l = self.bits as usize;
        let w = self.words as usize;
        8 + (l << 3) + (w << 2)
    }

    // Where the body ends in the trace.
    pub fn end_place(self) -> usize
        ensures { self.start ≤ result }
    {
        self.start as usize + self.body_size()
    }

    // Where the body of case k ends, which has to start at `due`.
    fn check(self, k: u32, due: usize) -> Result<usize, Fault> {
        let Case { bits, words, start } = self;
        if !matches!(bits, 128 | 256 | 512 | 1024 | 2048) {
            return Err(Fault::Length(k, bits));
        }
        if words > 4096 {
            return Err(Fault::Words(k, words));
        }
        if start as usize != due {
            return Err(Fault::Start(k, start, due));
        }
        Ok(self.end_place())
    }
}

// The length that the contents say. Where the trace has ended, that they are cut short is a fault of the number of cases.
fn check(trace: &[u8], ended: bool) -> Result<usize, Fault> {
    let size = trace.len();
    let cases = number_at(trace, 0).ok_or(Fault::NoCount(size))?;
    if !matches!(cases, 1..=1024) {
        return Err(Fault::Count(cases));
    }
    if ended && size < entry_place(cases) {
        return Err(Fault::CutShort(cases, size));
    }
    (0..cases).try_fold(entry_place(cases), |due, k| {
        Case::of_trace(trace, k).check(k, due)
    })
}

// What is wrong with a trace that is refused, or with the first bytes of one that has not ended, in the order of its bytes.
pub fn first_fault(trace: &[u8], ended: bool) -> Fault {
    match check(trace, ended) {
        Ok(due) => Fault::Total(due, trace.len()),
        Err(fault) => fault,
    }
}
