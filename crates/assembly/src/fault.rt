// What is wrong with a line of the text: where, and what would be right there.
use crate::instruction::read_instruction;
use crate::place::skip_blanks;
use std::fmt;
use std::fmt::Write;
use text::Text;

// No instruction is longer than 47 bytes.
const MOST: usize = 64;

// Bytes from the space to the tilde.
const PRINTABLE: usize = 95;

// The instruction that stands in a line from the place `start` on is none: no instruction goes on behind the first `reach` bytes.
// It is shown as the column, what is due there, and what stands there.
#[derive(Clone, Copy)]
pub struct Fault<'a> {
    pub(crate) text: &'a [u8],
    pub(crate) start: usize,
    pub(crate) reach: usize,
}

// Does some instruction begin with this text and a byte more?
fn goes_on(beginning: &[u8], b: u8) -> bool {
    let mut tried = Text::<MOST>::new();
    tried.push_bytes(beginning);
    tried.push(b);
    match read_instruction(tried.as_bytes()) {
        Ok(_) => true,
        Err(not) => beginning.len() < not.reach,
    }
}

// The bytes that may follow a beginning. Each printable byte is tried: the reader alone says what may follow.
fn followers(beginning: &[u8]) -> Text<PRINTABLE> {
    let mut set = Text::new();
    for b in b' '..=b'~' {
        if goes_on(beginning, b) {
            set.push(b);
        }
    }
    set
}

#[derive(Clone, Copy)]
struct Quoted<'a>(&'a [u8]);

impl fmt::Display for Quoted<'_> {
    fn fmt<W: fmt::Write>(&self, f: &mut fmt::Formatter<W>) -> fmt::Result {
        f.write_char('\'')?;
        for b in self.0 {
            f.write_char(char::from(*b))?;
        }
        f.write_char('\'')
    }
}

// One of a set of bytes.
#[derive(Clone, Copy)]
struct OneOf<'a>(&'a [u8]);

impl fmt::Display for OneOf<'_> {
    fn fmt<W: fmt::Write>(&self, f: &mut fmt::Formatter<W>) -> fmt::Result {
        match self.0 {
            [] => Ok(()),
            [_] => write!(f, "{}", Quoted(self.0)),
            _ => write!(f, "one of {}", Quoted(self.0)),
        }
    }
}

// What is due after a beginning.
#[derive(Clone, Copy)]
struct Due<'a>(&'a [u8]);

impl fmt::Display for Due<'_> {
    fn fmt<W: fmt::Write>(&self, f: &mut fmt::Formatter<W>) -> fmt::Result {
        let set = followers(self.0);
        let next = OneOf(set.as_bytes());
        if self.0.is_empty() {
            return write!(f, "an instruction begins with {next}");
        }
        write!(f, "after {} comes {next}", Quoted(self.0))?;
        if read_instruction(self.0).is_err() {
            return Ok(());
        }
        let comma = if set.as_bytes().is_empty() { "" } else { ", " };
        write!(f, "{comma}the line's end or a // comment")
    }
}

// A byte of the text.
#[derive(Clone, Copy)]
struct Found(u8);

impl fmt::Display for Found {
    fn fmt<W: fmt::Write>(&self, f: &mut fmt::Formatter<W>) -> fmt::Result {
        match self.0 {
            b'\t' => write!(f, "a tab"),
            b' '..=b'~' => write!(f, "{}", Quoted(&[self.0])),
            b => write!(f, "the byte 0x{b:02X}"),
        }
    }
}

impl Fault<'_> {
    // Where the text stops being an instruction: behind one that is whole, blanks are none of it.
    fn place(&self, beginning: &[u8]) -> usize {
        if read_instruction(beginning).is_ok() {
            return skip_blanks(self.text, beginning.len());
        }
        beginning.len()
    }
}

impl fmt::Display for Fault<'_> {
    fn fmt<W: fmt::Write>(&self, f: &mut fmt::Formatter<W>) -> fmt::Result {
        let beginning = &self.text[..self.reach.min(self.text.len())];
        let place = self.place(beginning);
        let column = self.start.wrapping_add(place).wrapping_add(1);
        let due = Due(beginning);
        match self.text.get(place) {
            Some(b) => write!(f, ", column {column}: {due}, not {}", Found(*b)),
            None => write!(f, ", column {column}: the line is cut off: {due}"),
        }
    }
}
