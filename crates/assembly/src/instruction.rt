// An instruction: a line of the grammar, or a word that has none, as `.inst 0x` and one to eight hexadecimal digits.
use isa::types::Op;

// Not an instruction: the length of the longest beginning that some instruction has.
#[derive(Clone, Copy, Debug, PartialEq, Eq)]
pub struct NotInstruction {
    pub reach: usize,
}

const DIRECTIVE: &[u8; 8] = b".inst 0x";

const MOST_DIGITS: usize = 8;

// How much of the directive's name stands at the start.
fn along(s: &[u8]) -> usize {
    s.iter().zip(DIRECTIVE).take_while(|(a, b)| a == b).count()
}

fn word_of_digits(digits: &[u8]) -> u32 {
    digits.iter().fold(0, |word, b| {
        word << 4 | char::from(*b).to_digit(16).unwrap_or(0)
    })
}

fn read_directive(s: &[u8]) -> Result<u32, NotInstruction> {
    let Some(digits) = s.strip_prefix(DIRECTIVE) else {
        return Err(NotInstruction { reach: along(s) });
    };
    let count = digits
        .iter()
        .take(MOST_DIGITS)
        .take_while(|b| b.is_ascii_hexdigit())
        .count();
    if count == 0 || count < digits.len() {
        return Err(NotInstruction { reach: 8 + count });
    }
    Ok(word_of_digits(digits))
}

fn word_of(op: Op) -> Result<u32, NotInstruction> {
    match codec::encode(op) {
        Ok(word) => Ok(word),
        // Not reached: an operation that has a line has a word.
        Err(_) => Err(NotInstruction { reach: 0 }),
    }
}

pub fn read_instruction(s: &[u8]) -> Result<u32, NotInstruction> {
    if s.starts_with(b".") {
        return read_directive(s);
    }
    match line_reader::read_line(s) {
        Ok(op) => word_of(op),
        Err(none) => Err(NotInstruction { reach: none.reach }),
    }
}
