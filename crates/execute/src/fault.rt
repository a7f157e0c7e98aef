// What can be wrong with the text.
use std::fmt;

#[derive(Clone, Copy)]
pub enum Fault<'a> {
    UnknownStatement,
    LengthNotFirst,
    SecondLength,
    NoLength,
    LengthTooLarge,
    NumberMissing,
    NotDecimal,
    NotAFlag,
    NothingToShow,
    WordMissing,
    WordTooLong,
    TooManyWords,
    NotHexadecimal,
    NoSuchRegister,
    HalfByte,
    TooManyBytes,
    TooMuch,
    InstructionMissing,
    NotAnInstruction(assembly::Fault<'a>),
}

impl fmt::Display for Fault<'_> {
    fn fmt<W: fmt::Write>(&self, f: &mut fmt::Formatter<W>) -> fmt::Result {
        f.write_str(match self {
            Fault::UnknownStatement => "unknown statement",
            Fault::LengthNotFirst => "the length must come first",
            Fault::SecondLength => "a second length",
            Fault::NoLength => "the text ends with no length",
            Fault::LengthTooLarge => "a length above 4096",
            Fault::NumberMissing => "a number is missing",
            Fault::NotDecimal => "not a decimal number",
            Fault::NotAFlag => "qc is 0 or 1",
            Fault::NothingToShow => "show takes b, h, s, d or a register, z0 to z31",
            Fault::WordMissing => "a word is missing",
            Fault::WordTooLong => "a word of more than 8 digits",
            Fault::TooManyWords => "more than 4097 words",
            Fault::NotHexadecimal => "a digit that is not hexadecimal",
            Fault::NoSuchRegister => "a register above 31",
            Fault::HalfByte => "a byte of one digit",
            Fault::TooManyBytes => "more bytes than a register has",
            Fault::TooMuch => "more than the statement takes",
            Fault::InstructionMissing => "an instruction is missing",
            Fault::NotAnInstruction(fault) => return write!(f, "{fault}"),
        })
    }
}

impl<'a> From<assembly::Fault<'a>> for Fault<'a> {
    fn from(fault: assembly::Fault<'a>) -> Self {
        Fault::NotAnInstruction(fault)
    }
}

// A fault, and the number of its line.
#[derive(Clone, Copy)]
pub struct Refusal<'a> {
    pub line: usize,
    pub fault: Fault<'a>,
}

impl fmt::Display for Refusal<'_> {
    fn fmt<W: fmt::Write>(&self, f: &mut fmt::Formatter<W>) -> fmt::Result {
        let line = self.line;
        match self.fault {
            // It begins with the column.
            Fault::NotAnInstruction(fault) => write!(f, "line {line}{fault}"),
            fault => write!(f, "line {line}: {fault}"),
        }
    }
}
