// Writes a line for each instruction word of standard input: an assembly text that gives the same words back. docs/asm.md has the format.
#![tactic(auto)]

use input::ReadError;
use isa::types::{Decoded, Op};
use std::fmt;
use std::fmt::Write;
use std::io::{Stdin, Stdout};
use text::Text;

// Bytes of one piece: a multiple of 4.
const PIECE: usize = 32768;

// The room that a full piece asks for: 48 bytes for each of its 8,192 words. No line of the grammar is longer than 47, and the others have fewer.
const ROOM: usize = 393216;

// Nothing says that the input ends, so the loop counts the pieces: 2^55 bytes are no limit.
const PIECES: usize = 1099511627776;

const DIGITS: &[u8; 16] = b"0123456789ABCDEF";

// Why it stops before the input's end, or what the input leaves over.
#[derive(Clone, Copy)]
enum Failure {
    Unread,
    Unwritten,
    LeftOver(usize),
    TooLong,
}

impl fmt::Display for Failure {
    fn fmt<W: fmt::Write>(&self, f: &mut fmt::Formatter<W>) -> fmt::Result {
        match self {
            Failure::Unread => write!(f, "the input could not be read"),
            Failure::Unwritten => write!(f, "the output could not be written"),
            Failure::LeftOver(n) => { write!(f, "bytes left over behind the last whole word: {n}") }
            Failure::TooLong => write!(f, "the input is longer than 2^55 bytes"),
        }
    }
}

impl From<ReadError> for Failure {
    fn from(_e: ReadError) -> Failure {
        Failure::Unread
    }
}

// ---- a line

fn line_length(op: Op, room: &mut [u8]) -> usize {
    // No refusal is met: an operation that a word is has a line, and ROOM is enough for a full piece.
    line_writer::write_line(op, room).unwrap_or(0)
}

// The eight digits of a word.
fn hex_of(word: u32) -> [u8; 8] {
    let mut digits = [0; 8];
    let mut rest = word;
    for digit in digits.iter_mut().rev() {
        *digit = DIGITS[(rest % 16) as usize];
        rest >>= 4;
    }
    digits
}

fn put_other(out: &mut Text<ROOM>, word: u32, why: &str) {
    out.push_bytes(b".inst 0x");
    out.push_bytes(&hex_of(word));
    out.push_bytes(b" // ");
    out.push_bytes(why.as_bytes());
}

fn put_instruction(out: &mut Text<ROOM>, word: u32) {
    match codec::decode(word) {
        Decoded::Operation(op) => out.push_with(|room| line_length(op, room)),
        Decoded::Reserved => put_other(out, word, "RESERVED"),
        Decoded::Outside => put_other(out, word, "OUTSIDE"),
    }
    out.push(b'\n');
}

// ---- pieces

// The lines of the whole words.
fn put_lines(out: &mut Text<ROOM>, bytes: &[u8]) {
    let (words, _) = bytes.as_chunks::<4>();
    for word in words {
        put_instruction(out, u32::from_le_bytes(*word));
    }
}

// Reads a piece and writes its lines, also of what came before a read failed. A piece that does not fill the buffer is the last. Whether more may follow.
fn take_piece(
    buf: &mut [u8],
    out: &mut Text<ROOM>,
    mut stdin: Stdin,
    stdout: Stdout,
) -> Result<bool, Failure> {
    let filled = input::fill(&mut stdin, buf);
    let n = filled.unwrap_or_else(|e| e.length);
    out.truncate(0);
    put_lines(out, &buf[..n]);
    if stdout.write_all(out.as_bytes()).is_err() {
        return Err(Failure::Unwritten);
    }
    filled?;
    if n % 4 != 0 {
        return Err(Failure::LeftOver(n % 4));
    }
    Ok(n == buf.len())
}

fn take_all(stdin: Stdin, stdout: Stdout) -> Result<(), Failure> {
    let mut buf = [0u8; PIECE];
    let mut out = Text::new();
    for _ in 0..PIECES {
        if !take_piece(&mut buf, &mut out, stdin, stdout)? {
            return Ok(());
        }
    }
    Err(Failure::TooLong)
}

fn main(rt: HostRuntime) {
    if let Err(failure) = take_all(rt.stdin(), rt.stdout()) {
        let _ = eprintln!(rt; "kob disasm: {failure}");
    }
}
