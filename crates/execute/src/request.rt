// The text: what it asks for, its words and its registers.
use crate::fault::{Fault, Refusal};
use crate::file::{File, MOST_BITS};
use crate::line::Line;
use arrayvec::ArrayVec;
use isa::types::Size;

// One word more than the library takes.
const MOST_WORDS: usize = 4097;

// What the lines so far ask for, from the length on: the registers, the flag, the words, and what is printed: lanes of a
// size or bytes, and the registers that are printed in any case (bit n for register n).
#[derive(Drop)]
pub struct Request {
    pub file: File,
    pub qc: bool,
    pub words: ArrayVec<u32, MOST_WORDS>,
    pub lanes: Option<Size>,
    pub shown: u32,
}

#[derive(Clone, Copy)]
enum Statement {
    Length,
    Qc,
    Show,
    Word,
    Line,
    Register,
}

fn statement_of(name: &[u8]) -> Result<Statement, Fault<'static>> {
    match name {
        b"length" => Ok(Statement::Length),
        b"qc" => Ok(Statement::Qc),
        b"show" => Ok(Statement::Show),
        b"word" => Ok(Statement::Word),
        b"line" => Ok(Statement::Line),
        b"z" => Ok(Statement::Register),
        _ => Err(Fault::UnknownStatement),
    }
}

fn size_of(name: &[u8]) -> Result<Size, Fault<'static>> {
    match name {
        b"b" => Ok(Size::B),
        b"h" => Ok(Size::H),
        b"s" => Ok(Size::S),
        b"d" => Ok(Size::D),
        _ => Err(Fault::NothingToShow),
    }
}

impl Request {
    // What a text asks for that gives its length alone.
    fn new(bits: usize) -> Self {
        Request {
            file: File::new(bits),
            qc: false,
            words: ArrayVec::new(),
            lanes: None,
            shown: 0,
        }
    }

    pub fn is_shown(&self, n: usize) -> bool {
        self.shown >> (n % 32) & 1 == 1
    }

    fn read_qc(&mut self, mut line: Line) -> Result<(), Fault<'static>> {
        let flag = line.number(1, Fault::NotAFlag)?;
        line.end()?;
        self.qc = flag == 1;
        Ok(())
    }

    fn read_show(&mut self, mut line: Line) -> Result<(), Fault<'static>> {
        if line.strip(b'z') {
            let n = line.number(31, Fault::NoSuchRegister)?;
            line.end()?;
            self.shown |= 1 << n;
        } else {
            let name = line.word();
            line.end()?;
            self.lanes = Some(size_of(name)?);
        }
        Ok(())
    }

    fn push(&mut self, word: u32) -> Result<(), Fault<'static>> {
        self.words.try_push(word).map_err(|_| Fault::TooManyWords)
    }

    fn read_word(&mut self, mut line: Line) -> Result<(), Fault<'static>> {
        let word = line.code()?;
        line.end()?;
        self.push(word)
    }

    fn read_instruction<'a>(&mut self, line: Line<'a>) -> Result<(), Fault<'a>> {
        match assembly::assemble(line.whole(), line.place())? {
            Some(word) => self.push(word),
            None => Err(Fault::InstructionMissing),
        }
    }

    // Bytes that are not given are 0.
    fn read_register(&mut self, mut line: Line) -> Result<(), Fault<'static>> {
        let n = line.number(31, Fault::NoSuchRegister)?;
        for b in self.file.register_mut(n) {
            *b = line.byte()?.unwrap_or(0);
        }
        line.end().map_err(|_| Fault::TooManyBytes)
    }

    // A statement that comes after the length.
    fn read<'a>(&mut self, statement: Statement, line: Line<'a>) -> Result<(), Fault<'a>> {
        match statement {
            Statement::Length => Err(Fault::SecondLength),
            Statement::Qc => self.read_qc(line),
            Statement::Show => self.read_show(line),
            Statement::Word => self.read_word(line),
            Statement::Line => self.read_instruction(line),
            Statement::Register => self.read_register(line),
        }
    }
}

// Not part of `read_line`, which would then clear room for a request at each line of the text.
fn read_length(mut line: Line, request: &mut Option<Request>) -> Result<(), Fault<'static>> {
    let bits = line.number(MOST_BITS, Fault::LengthTooLarge)?;
    line.end()?;
    *request = Some(Request::new(bits));
    Ok(())
}

// Takes up a line in what the lines before it ask for: nothing, before the length.
fn read_line<'a>(mut line: Line<'a>, request: &mut Option<Request>) -> Result<(), Fault<'a>> {
    if line.is_over() {
        return Ok(());
    }
    let statement = statement_of(line.word())?;
    match (statement, request.as_mut()) {
        (_, Some(request)) => request.read(statement, line),
        (Statement::Length, None) => read_length(line, request),
        (_, None) => Err(Fault::LengthNotFirst),
    }
}

// What the text asks for. One that ends with no length is wrong in its last line; an empty one has one line. Never inlined,
// so that the report may lie on the stack where the lines were read.
#[inline(never)]
pub fn read_text(text: &[u8]) -> Result<Request, Refusal<'_>> {
    let mut request = None;
    let mut number = 0usize;
    for line in text.split_inclusive(|b| *b == b'\n') {
        number = number.saturating_add(1);
        read_line(Line::new(line), &mut request).map_err(|fault| Refusal {
            line: number,
            fault,
        })?;
    }
    request.ok_or(Refusal {
        line: number.max(1),
        fault: Fault::NoLength,
    })
}
