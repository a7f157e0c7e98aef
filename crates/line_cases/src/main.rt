// Reads and writes the stored lines of standard input, and prints what comes of each. A record is little-endian numbers of 4 bytes, and for kind 1 a text.
// Kind 1 reads: the text's length and its bytes. It prints the length and the number, and the eight fields of the operation or the length of the longest beginning.
// Kind 2 writes: a room and the eight fields of an operation. It prints the room, the number, the line's length and all of a buffer whose first bytes are the room.
#![tactic(auto)]

ghost use Rattle.std.specs.Prelude.{◌<◌};

use fields::{fields_of, named_by, read_numbers};
use grammar::types::LineRefusal;
use isa::types::Op;
use line_reader::read_line;
use line_writer::write_line;
use std::io;
use std::io::{Read, Stdin, Stdout};

// Nothing says that the input ends, so the loop counts the cases.
const MOST: usize = 100000;

// Of the longest text.
const TEXT: usize = 1024;

// Of the buffer, more than the longest line has.
const BUFFER: usize = 64;

// What the buffer holds before the call. No line has this byte.
const TILDE: u8 = 0x7e;

// ---- printing

fn print_count(stdout: Stdout, n: usize) -> io::Result<()> {
    print!(stdout; " {n}")
}

fn print_number(stdout: Stdout, n: u32) -> io::Result<()> {
    print!(stdout; " {n}")
}

fn print_fields(stdout: Stdout, f: [u32; 8]) -> io::Result<()> {
    for n in f {
        print_number(stdout, n)?;
    }
    Ok(())
}

fn print_read(stdout: Stdout, text: &[u8]) -> io::Result<()> {
    print!(stdout; "R")?;
    print_count(stdout, text.len())?;
    match read_line(text) {
        Ok(op) => {
            print_number(stdout, 0)?;
            print_fields(stdout, fields_of(op))
        }
        Err(refusal) => {
            print_number(stdout, 12)?;
            print_count(stdout, refusal.reach)
        }
    }
}

fn print_answer(stdout: Stdout, number: u32, length: usize) -> io::Result<()> {
    print_number(stdout, number)?;
    print_count(stdout, length)
}

fn print_written(stdout: Stdout, written: Result<usize, LineRefusal>) -> io::Result<()> {
    match written {
        Ok(n) => print_answer(stdout, 0, n),
        Err(refusal) => print_answer(stdout, refusal.number(), 0),
    }
}

// ---- cases

fn wide(x: u8) -> u32
    ensures { result < 256 }
{
    x as u32
}

// The next number of standard input; 0, which is no kind, where it has ended.
fn read_number(mut stdin: Stdin) -> u32 {
    let mut b = [0u8; 4];
    if stdin.read_exact(&mut b).is_err() {
        return 0;
    }
    wide(b[0]) + (wide(b[1]) << 8) + (wide(b[2]) << 16) + (wide(b[3]) << 24)
}

fn read_fields(stdin: Stdin) -> [u32; 8] {
    [
        read_number(stdin),
        read_number(stdin),
        read_number(stdin),
        read_number(stdin),
        read_number(stdin),
        read_number(stdin),
        read_number(stdin),
        read_number(stdin),
    ]
}

fn read_case(mut stdin: Stdin, stdout: Stdout, length: usize) -> io::Result<bool> {
    let mut buffer = [0u8; TEXT];
    let Some(text) = buffer.get_mut(..length) else {
        return Ok(false);
    };
    if stdin.read_exact(text).is_err() {
        return Ok(false);
    }
    print_read(stdout, text)?;
    Ok(true)
}

fn write_text(stdout: Stdout, op: Op, buffer: &mut [u8], room: usize) -> io::Result<bool> {
    let Some(out) = buffer.get_mut(..room) else {
        return Ok(false);
    };
    print!(stdout; "W")?;
    print_count(stdout, room)?;
    print_written(stdout, write_line(op, out))?;
    print!(stdout; " ")?;
    Ok(true)
}

fn write_operation(stdout: Stdout, room: usize, op: Op) -> io::Result<bool> {
    let mut buffer = [TILDE; BUFFER];
    let worked = write_text(stdout, op, &mut buffer, room)?;
    stdout.write_all(&buffer)?;
    Ok(worked)
}

fn write_case(stdout: Stdout, room: usize, f: [u32; 8]) -> io::Result<bool> {
    match named_by(read_numbers(&f)) {
        Some(op) => write_operation(stdout, room, op),
        None => Ok(false),
    }
}

fn run_case(stdin: Stdin, stdout: Stdout) -> io::Result<bool> {
    let kind = read_number(stdin);
    let worked = match kind {
        1 => read_case(stdin, stdout, read_number(stdin) as usize)?,
        2 => write_case(stdout, read_number(stdin) as usize, read_fields(stdin))?,
        _ => false,
    };
    if worked {
        print!(stdout; "\n")?;
    }
    Ok(worked)
}

fn main(rt: HostRuntime) -> io::Result<()> {
    for _ in 0..MOST {
        if !run_case(rt.stdin(), rt.stdout())? {
            break;
        }
    }
    Ok(())
}
