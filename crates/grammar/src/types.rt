ghost use Rattle.std.specs.Prelude.{◌≡◌};
ghost use Rattle.grammar.specs.declared.types.LineRefusal.{LineRefusal};
ghost use Rattle.grammar.specs.Number.{line_refusal_number};

use isa::types::WriteRefusal;

// A text that is no line: the length of the longest beginning that some line has.
#[derive(Clone, Copy, Debug, PartialEq, Eq)]
pub struct NotLine {
    pub reach: usize,
}

// Why an operation's line is not written: what refuses its word, or a buffer shorter than the line.
#[derive(Clone, Copy, Debug, PartialEq, Eq)]
pub enum LineRefusal {
    Word(WriteRefusal),
    Room,
}

impl From<WriteRefusal> for LineRefusal {
    ghost from_gives = { λ refusal result. result ≡ LineRefusal.Word refusal };

    fn from(refusal: WriteRefusal) -> LineRefusal {
        LineRefusal::Word(refusal)
    }
}

impl LineRefusal {
    pub fn number(self) -> u32
        ensures { result ≡ line_refusal_number self }
    {
        match self {
            LineRefusal::Word(word) => word as u32,
            LineRefusal::Room => 13,
        }
    }
}
