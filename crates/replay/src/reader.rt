// The numbers of a trace, and a reader that holds a trace and its place.
ghost use Rattle.std.specs.Prelude.{◌≡◌};
ghost use Rattle.replay.specs.Read.{number_at, Moved};

use codec::word_at;

// The number at a place, if the trace has its four bytes.
pub fn number_at(s: &[u8], at: usize) -> Option<u32>
    ensures { result ≡ number_at s.now at }
{
    if s.len() < 4 || s.len() - 4 < at {
        return None;
    }
    Some(word_at(s, at))
}

// Document 01's form for a lent trace: the slice and a place in it.
#[derive(Clone, Copy)]
pub struct Reader<'a> {
    pub trace: &'a [u8],
    pub at: usize,
}

impl<'a> Reader<'a> {
    pub fn new(trace: &'a [u8], at: usize) -> Reader<'a>
        ensures { (result.trace ≡ trace.entry) × (result.at ≡ at) }
    {
        Reader { trace, at }
    }

    // The number at the reader's place, which then is behind it.
    pub fn number(&mut self) -> Option<u32>
        ensures gives { result ≡ number_at self.old.trace.now self.old.at }
        ensures moves { Moved result self.old.at self.new.at × (self.new.trace ≡ self.old.trace) }
    {
        let n = number_at(self.trace, self.at)?;
        self.at += 4;
        Some(n)
    }
}
