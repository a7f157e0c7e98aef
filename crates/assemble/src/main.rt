// Assembles the text on standard input: its words go to standard output, as four bytes each or as lines of hexadecimal
// digits. It stops at the first line that is wrong, and says what is wrong with it. docs/asm.md has the format.
#![tactic(auto)]

ghost use Rattle.std.specs.Prelude.{◌≤◌, length};

use assembly::Fault;
use std::fmt;
use std::fmt::Write;
use std::io::{Stdin, Stdout};
use text::Text;

// The option comes on a descriptor of its own. Only the kit's `io` reads one by its number.
const OPTION_FILENO: i32 = 3;

// The longest line of the text, without its line feed.
const MOST_LINE: usize = 4096;

// Bytes of the text that are held. The words of a piece take no more: the shortest instruction, `.inst 0x0`, has 9 bytes,
// and so has the line of a word.
const PIECE: usize = 65536;

// Nothing says that the input ends, so the loop counts the pieces. Each has 61,440 bytes that no other had: 2^55 bytes are no limit.
const PIECES: usize = 1099511627776;

// What is said where it stops before the text's end.
type Message = Text<256>;

fn message<D: fmt::Display + Drop>(what: D) -> Message {
    let mut said = Text::new();
    let _ = writeln!(said, "kob asm: {what}");
    said
}

// ---- lines

// What is wrong with a line. `take_line` makes no message of it: its locals are cleared for each line, and a message is long.
#[derive(Clone, Copy)]
enum Wrong<'a> {
    TooLong,
    Instruction(Fault<'a>),
}

impl fmt::Display for Wrong<'_> {
    fn fmt<W: fmt::Write>(&self, f: &mut fmt::Formatter<W>) -> fmt::Result {
        match self {
            Wrong::TooLong => write!(f, ": longer than {MOST_LINE} bytes"),
            Wrong::Instruction(fault) => write!(f, "{fault}"),
        }
    }
}

impl<'a> From<Fault<'a>> for Wrong<'a> {
    fn from(fault: Fault<'a>) -> Self {
        Wrong::Instruction(fault)
    }
}

fn is_too_long(line: &[u8]) -> bool {
    line.strip_suffix(b"\n").unwrap_or(line).len() > MOST_LINE
}

fn put_code(out: &mut Text<PIECE>, word: u32, hex: bool) {
    if hex {
        let _ = writeln!(out, "{word:08X}");
    } else {
        out.push_bytes(&word.to_le_bytes());
    }
}

fn take_line<'a>(line: &'a [u8], hex: bool, out: &mut Text<PIECE>) -> Result<(), Wrong<'a>> {
    if is_too_long(line) {
        return Err(Wrong::TooLong);
    }
    if let Some(word) = assembly::assemble(line, 0)? {
        put_code(out, word, hex);
    }
    Ok(())
}

// ---- pieces

// The bytes of the lines that have ended, or that are too long already. The last piece ends its last.
fn ended(piece: &[u8], last: bool) -> usize
    ensures { result ≤ length piece.now }
{
    let feed = piece.iter().rposition(|b| *b == b'\n');
    let end = feed.map_or(0, |place| place + 1);
    if last || is_too_long(&piece[end..]) {
        piece.len()
    } else {
        end
    }
}

// What is kept from piece to piece: the bytes of a line that has not ended, at the buffer's start, and the number of lines before it.
#[derive(Drop)]
struct Assembler {
    buf: [u8; PIECE],
    kept: usize,
    lines: u64,
    hex: bool,
    ghost within: { kept ≤ 65536 },
}

impl Assembler {
    // Reads and assembles one piece, and writes its words. One that does not fill the buffer is the last. Whether the text goes on.
    fn take_piece(
        &mut self,
        out: &mut Text<PIECE>,
        mut stdin: Stdin,
        stdout: Stdout,
    ) -> Result<bool, Message> {
        let filled = input::fill(&mut stdin, &mut self.buf[self.kept..]);
        let n = self.kept + filled.map_err(|e| message(e))?;
        let last = n < PIECE;
        let end = ended(&self.buf[..n], last);
        out.truncate(0);
        for line in self.buf[..end].split_inclusive(|b| *b == b'\n') {
            self.lines = self.lines.wrapping_add(1);
            if let Err(wrong) = take_line(line, self.hex, out) {
                return Err(message(format_args!("line {}{wrong}", self.lines)));
            }
        }
        stdout
            .write_all(out.as_bytes())
            .map_err(|_| message("the output could not be written"))?;
        let (taken, rest) = self.buf.split_at_mut(end);
        let open = &rest[..n - end];
        self.kept = open.len();
        // Always there: a line that has not ended, in a full buffer, is shorter than those before it.
        if let Some(start) = taken.get_mut(..open.len()) {
            start.copy_from_slice(open);
        }
        Ok(!last)
    }
}

fn assemble_all(hex: bool, stdin: Stdin, stdout: Stdout) -> Result<(), Message> {
    let mut assembler = Assembler {
        buf: [0; PIECE],
        kept: 0,
        lines: 0,
        hex,
    };
    let mut out = Text::new();
    for _ in 0..PIECES {
        if !assembler.take_piece(&mut out, stdin, stdout)? {
            return Ok(());
        }
    }
    Err(message("the text is longer than 2^55 bytes"))
}

// Whether the words are to be lines: there is one option, and without it an empty line, or nothing.
fn wants_hex() -> bool {
    let mut option = [0u8; 2];
    io::read_full(OPTION_FILENO, &mut option) == 2
}

fn main(rt: HostRuntime) {
    if let Err(said) = assemble_all(wants_hex(), rt.stdin(), rt.stdout()) {
        let _ = rt.stderr().write_all(said.as_bytes());
    }
}
