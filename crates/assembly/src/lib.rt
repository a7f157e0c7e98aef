// One line of an assembly text: the word of its instruction, or what is wrong with it. docs/asm.md has the format.
#![tactic(auto)]

mod fault;
mod instruction;
mod place;

use crate::instruction::read_instruction;
use crate::place::{content, skip_blanks};
pub use fault::Fault;

// The word of the instruction that stands in a line of the text from a place on, or none where nothing stands there.
pub fn assemble(line: &[u8], from: usize) -> Result<Option<u32>, Fault<'_>> {
    let text = content(line, from);
    if text.is_empty() {
        return Ok(None);
    }
    match read_instruction(text) {
        Ok(word) => Ok(Some(word)),
        Err(not) => Err(Fault {
            text,
            start: skip_blanks(line, from),
            reach: not.reach,
        }),
    }
}
