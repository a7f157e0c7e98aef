// The words and numbers of one line.
ghost use Rattle.std.specs.Prelude.{◌≤◌, length, IfOk};

use crate::fault::Fault;
use std::str;

fn is_space(b: u8) -> bool {
    matches!(b, b' ' | b'\t' | b'\r')
}

// Does a word end at this byte?
fn is_gap(b: u8) -> bool {
    is_space(b) || matches!(b, b'\n' | b'#')
}

fn digit(b: u8) -> Result<u8, Fault<'static>> {
    match b {
        b'0'..=b'9' => Ok(b - b'0'),
        b'A'..=b'F' => Ok(b - b'A' + 10),
        b'a'..=b'f' => Ok(b - b'a' + 10),
        _ => Err(Fault::NotHexadecimal),
    }
}

// A line of the text, and what is still to be read of it, from a word on.
#[derive(Clone, Copy)]
pub struct Line<'a> {
    whole: &'a [u8],
    rest: &'a [u8],
}

impl<'a> Line<'a> {
    pub fn new(line: &'a [u8]) -> Self {
        Line {
            whole: line,
            rest: after_spaces(line),
        }
    }

    pub fn whole(&self) -> &'a [u8] {
        self.whole
    }

    // Where the rest begins in the line.
    pub fn place(&self) -> usize {
        self.whole.len().saturating_sub(self.rest.len())
    }

    // Is there nothing more, but for a comment?
    pub fn is_over(&self) -> bool {
        matches!(self.rest.first(), None | Some(b'\n' | b'#'))
    }

    // Nothing more may come.
    pub fn end(&self) -> Result<(), Fault<'static>> {
        if self.is_over() {
            Ok(())
        } else {
            Err(Fault::TooMuch)
        }
    }

    // Takes a word, which is empty where the line is over.
    pub fn word(&mut self) -> &'a [u8] {
        let gap = self.rest.iter().position(|b| is_gap(*b));
        let (word, rest) = self.rest.split_at(gap.unwrap_or(self.rest.len()));
        self.rest = after_spaces(rest);
        word
    }

    // Takes a byte at the front that a word begins with, and spaces behind it.
    pub fn strip(&mut self, first: u8) -> bool {
        match self.rest.split_first() {
            Some((b, rest)) if *b == first => {
                self.rest = after_spaces(rest);
                true
            }
            _ => false,
        }
    }

    // Takes a decimal number; `over` tells of one above `most`.
    pub fn number(&mut self, most: usize, over: Fault<'static>) -> Result<usize, Fault<'static>>
        ensures { IfOk result (λ n. n ≤ most) }
    {
        if self.is_over() {
            return Err(Fault::NumberMissing);
        }
        let word = self.word();
        if !word.iter().all(|b| b.is_ascii_digit()) {
            return Err(Fault::NotDecimal);
        }
        let digits = str::from_utf8(word).map_err(|_| Fault::NotDecimal)?;
        // What does not fit is above any limit.
        match digits.parse::<usize>() {
            Ok(n) if n <= most => Ok(n),
            _ => Err(over),
        }
    }

    // Takes an instruction word of one to eight hexadecimal digits, with or without 0x.
    pub fn code(&mut self) -> Result<u32, Fault<'static>> {
        let word = self.word();
        let digits = word.strip_prefix(b"0x").unwrap_or(word);
        let mut value = 0;
        for b in digits {
            value = value << 4 | u32::from(digit(*b)?);
        }
        if digits.is_empty() {
            return Err(Fault::WordMissing);
        }
        if digits.len() > 8 {
            return Err(Fault::WordTooLong);
        }
        Ok(value)
    }

    // Takes a byte of two digits; none where the line is over.
    pub fn byte(&mut self) -> Result<Option<u8>, Fault<'static>> {
        if self.is_over() {
            return Ok(None);
        }
        match self.rest {
            [high, low, rest @ ..] if !is_gap(*low) => {
                let value = digit(*high)? << 4 | digit(*low)?;
                self.rest = after_spaces(rest);
                Ok(Some(value))
            }
            [high, ..] => {
                digit(*high)?;
                Err(Fault::HalfByte)
            }
            [] => Ok(None),
        }
    }
}

fn after_spaces(s: &[u8]) -> &[u8] {
    let start = s.iter().position(|b| !is_space(*b));
    &s[start.unwrap_or(s.len())..]
}
