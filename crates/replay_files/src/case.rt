// The line on a case.
use crate::contents::{Case, number_or_zero};
use std::fmt;
use trace::types::Verdict;

// The case's number, what the contents say of it, the bytes of its body and its verdict.
#[derive(Clone, Copy)]
pub struct CaseLine<'a> {
    pub number: u32,
    pub case: Case,
    pub body: &'a [u8],
    pub verdict: Verdict,
}

impl CaseLine<'_> {
    // Where it stands, which at a length of 0 is nowhere.
    fn put_place<W: fmt::Write>(&self, f: &mut fmt::Formatter<W>, i: usize) -> fmt::Result {
        let width = self.case.bits as usize / 8;
        if width == 0 {
            return Ok(());
        }
        let register = i / width;
        let byte = i % width;
        write!(f, "\tz{register} byte {byte}")
    }

    fn put_file_differs<W: fmt::Write>(
        &self,
        f: &mut fmt::Formatter<W>,
        i: usize,
        expected: u8,
    ) -> fmt::Result {
        write!(f, "file differs\tbyte {i}")?;
        self.put_place(f, i)?;
        // No file has more than 8,192 bytes.
        let at = self.case.after_place() + 4 + i % 8192;
        let found = self.body.get(at).copied().unwrap_or(0);
        write!(f, "\texpected {expected:02X}\tfound {found:02X}")
    }

    // The word that ended the run, with the name that a listing has for it. No case has more than 4,096 words.
    fn put_stopped<W: fmt::Write>(
        &self,
        f: &mut fmt::Formatter<W>,
        n: usize,
        name: &str,
    ) -> fmt::Result {
        let at = self.case.words_place() + (n % 4096 << 2);
        let word = number_or_zero(self.body, at);
        write!(f, "stopped\tword {n}\t{word:08X} {name}")
    }

    fn put_verdict<W: fmt::Write>(&self, f: &mut fmt::Formatter<W>) -> fmt::Result {
        let before = number_or_zero(self.body, 0);
        let after = number_or_zero(self.body, self.case.after_place());
        match self.verdict {
            Verdict::Agrees => write!(f, "agrees"),
            Verdict::FileDiffers(i, expected) => self.put_file_differs(f, i, expected),
            // Both flags are 0 or 1, so the one that the run leaves is the other.
            Verdict::FlagDiffers if after == 0 => write!(f, "flag differs\texpected 1\tfound 0"),
            Verdict::FlagDiffers => write!(f, "flag differs\texpected 0\tfound 1"),
            Verdict::Outside(n) => self.put_stopped(f, n, "OUTSIDE"),
            Verdict::Reserved(n) => self.put_stopped(f, n, "RESERVED"),
            Verdict::BadFlag => write!(f, "bad flag\tbefore {before}\tafter {after}"),
        }
    }
}

// The case's number, its length and words, and the verdict.
impl fmt::Display for CaseLine<'_> {
    fn fmt<W: fmt::Write>(&self, f: &mut fmt::Formatter<W>) -> fmt::Result {
        let number = self.number;
        let Case { bits, words, .. } = self.case;
        write!(f, "{number}\t{bits}\t{words}\t")?;
        self.put_verdict(f)
    }
}
