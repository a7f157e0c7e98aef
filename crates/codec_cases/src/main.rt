// Decodes and writes the stored cases of standard input, and prints what comes of each: its number, word and fields.
// A case is little-endian numbers of 4 bytes: a kind, and then the word (kind 1) or the eight fields of an operation (kind 2).
#![tactic(auto)]

use fields::{fields_of, named_by, read_numbers};
use isa::types::{Decoded, Op};
use std::io;
use std::io::{Read, Stdin, Stdout};

// Nothing says that the input ends, so the loop counts the cases.
const MOST: usize = 100000;

// ---- printing

fn print_number(stdout: Stdout, n: u32) -> io::Result<()> {
    print!(stdout; " {n}")
}

fn print_word(stdout: Stdout, word: u32) -> io::Result<()> {
    print!(stdout; " {word:08x}")
}

fn print_fields(stdout: Stdout, f: [u32; 8]) -> io::Result<()> {
    for number in f {
        print_number(stdout, number)?;
    }
    Ok(())
}

fn print_decoded(stdout: Stdout, word: u32) -> io::Result<()> {
    print!(stdout; "D")?;
    print_word(stdout, word)?;
    match codec::decode(word) {
        Decoded::Operation(op) => {
            print_number(stdout, 0)?;
            print_fields(stdout, fields_of(op))
        }
        Decoded::Reserved => print_number(stdout, 5),
        Decoded::Outside => print_number(stdout, 4),
    }
}

fn print_answer(stdout: Stdout, number: u32, word: u32) -> io::Result<()> {
    print_number(stdout, number)?;
    print_word(stdout, word)
}

fn print_written(stdout: Stdout, op: Op) -> io::Result<()> {
    match codec::encode(op) {
        Ok(word) => print_answer(stdout, 0, word),
        Err(refusal) => print_answer(stdout, refusal as u32, 0),
    }
}

// Eight fields that name no operation have no number here: no stored case has any.
fn print_named(stdout: Stdout, f: [u32; 8]) -> io::Result<()> {
    print!(stdout; "E")?;
    print_fields(stdout, f)?;
    match named_by(read_numbers(&f)) {
        Some(op) => print_written(stdout, op),
        None => Ok(()),
    }
}

// ---- cases

// The next number of standard input.
fn read_number(mut stdin: Stdin) -> io::Result<u32> {
    let mut bytes = [0; 4];
    stdin.read_exact(&mut bytes)?;
    Ok(u32::from_le_bytes(bytes))
}

// A number that is cut off is 0.
fn read_field(stdin: Stdin) -> u32 {
    read_number(stdin).unwrap_or(0)
}

fn read_fields(stdin: Stdin) -> [u32; 8] {
    let mut fields = [0; 8];
    for field in &mut fields {
        *field = read_field(stdin);
    }
    fields
}

fn run_case(stdin: Stdin, stdout: Stdout) -> io::Result<bool> {
    match read_number(stdin) {
        Ok(1) => print_decoded(stdout, read_field(stdin))?,
        Ok(2) => print_named(stdout, read_fields(stdin))?,
        _ => return Ok(false),
    }
    print!(stdout; "\n")?;
    Ok(true)
}

fn main(rt: HostRuntime) -> io::Result<()> {
    for _ in 0..MOST {
        if !run_case(rt.stdin(), rt.stdout())? {
            break;
        }
    }
    Ok(())
}
