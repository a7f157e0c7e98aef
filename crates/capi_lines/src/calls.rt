// An operation's line, written from eight numbers and read into them.
ghost use Rattle.std.specs.Prelude.{◌≡◌, ◌≤◌};
ghost use Rattle.grammar.specs.Grammar.{line_max};
ghost use Rattle.grammar.specs.Number.{line_written_length};
ghost use Rattle.capi_lines.specs.Write.{line_packed, write_call};
ghost use Rattle.capi_lines.specs.Read.{read_call};

use fields::{fields_of, named_by, put_fields, read_numbers};
use grammar::types::LineRefusal;
use line_reader::read_line;
use line_writer::write_line;

const FIELDS: usize = 8;

const BAD_FIELDS: u64 = 32;

const NO_OPERATION: u64 = 33;

// The number in the low half, the line's length in the high half.
#[tactic(auto, unfolding(crate::specs::Write::line_packed, grammar::specs::Number::line_written_number, grammar::specs::Number::line_written_length))]
fn packed(written: Result<usize, LineRefusal>) -> u64
    requires { line_written_length written ≤ line_max }
    ensures { result ≡ line_packed written }
{
    match written {
        Ok(n) => (n as u64) << 32,
        Err(refusal) => refusal.number() as u64,
    }
}

// Writes the line of the operation that eight numbers name.
#[unsafe(no_mangle)]
pub extern "C" fn kob_line_write(fields: &[u32], out: &mut [u8]) -> u64
    ensures { record { answer = result; out = out.new } ≡ write_call fields.now out.old }
{
    if fields.len() != FIELDS {
        return BAD_FIELDS;
    }
    match named_by(read_numbers(fields)) {
        Some(op) => packed(write_line(op, out)),
        None => NO_OPERATION,
    }
}

// The operation's fields are written where the text is its line.
#[unsafe(no_mangle)]
pub extern "C" fn kob_line_read(line: &[u8], fields: &mut [u32]) -> u64
    ensures { record { answer = result; fields = fields.new } ≡ read_call line.now fields.old }
{
    if fields.len() != FIELDS {
        return BAD_FIELDS;
    }
    match read_line(line) {
        Ok(op) => {
            put_fields(fields, fields_of(op));
            0
        }
        Err(refusal) => 12 + ((refusal.reach as u64) << 32),
    }
}
