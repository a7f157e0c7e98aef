// Runs the stored cases of standard input, and prints what comes of each. A case begins with six little-endian numbers of 4 bytes: a kind, the vector length, the bytes of the file, the flag, a number, and a seed. Then come the bytes of the file where the seed is 0; any other seed makes the file.
// Kind 1 runs a program of so many words as the number says, which come last; kind 2 executes the number as a word. Both print the number answered, the words done, the flag and a digest of the file that is left.
// Kind 3 asks for the register of that number, and prints the number answered, the length and a digest of the part to read, the length of the part to fill, and a digest of the file with that part's bytes complemented.
#![tactic(auto)]

ghost use Rattle.std.specs.Prelude.{◌≡◌, ◌<◌, ◌≤◌, length, take};

use isa::types::Ran;
use regfile::check::{asked_number, check_register};
use regfile::part::{register, register_read};
use std::io;
use std::io::{Read, Stdin, Stdout};

// Nothing says that the input ends, so the loop counts the cases.
const MOST: usize = 100000;

const START: u64 = 11400714819323198485;

// ---- numbers that follow each other

// Marsaglia's xorshift.
fn following(x: u64) -> u64 {
    let y = x ^ (x << 13);
    let z = y ^ (y >> 7);
    z ^ (z << 17)
}

// The bytes of a lane, by the seed.
fn width_of(seed: u32) -> usize
    ensures { 0 < result }
{
    match seed % 4 {
        0 => 1,
        1 => 2,
        2 => 4,
        _ => 8,
    }
}

// A byte of a lane: of 0, the highest number, the lowest, -1, or any.
fn byte_of(kind: u64, top: bool, x: u64) -> u8 {
    match kind {
        0 => 0,
        1 => if top { 127 } else { 255 },
        2 => if top { 128 } else { 0 },
        3 => 255,
        _ => (x % 256) as u8,
    }
}

fn fill(file: &mut [u8], seed: u32) {
    let width = width_of(seed);
    let mut x = START ^ (seed as u64);
    let mut kind = 0;
    for (i, byte) in file.iter_mut().enumerate() {
        x = following(x);
        kind = if i % width == 0 { (x >> 32) % 8 } else { kind };
        *byte = byte_of(kind, i % width == width - 1, x);
    }
}

// Each byte is mixed in and the whole moved on, so that its place counts.
fn digest(file: &[u8]) -> u64 {
    file.iter().fold(START, |x, byte| mixed(x, *byte))
}

fn mixed(x: u64, byte: u8) -> u64 {
    following(x ^ (byte as u64))
}

// ---- reading

fn read_words(mut stdin: Stdin, words: &mut [u32]) -> io::Result<()> {
    for word in words {
        let mut bytes = [0; 4];
        stdin.read_exact(&mut bytes)?;
        *word = u32::from_le_bytes(bytes);
    }
    Ok(())
}

// The file from its seed, or read.
fn read_file(mut stdin: Stdin, file: &mut [u8], seed: u32) -> io::Result<()> {
    if seed == 0 {
        return stdin.read_exact(file);
    }
    fill(file, seed);
    Ok(())
}

// ---- printing

fn print_number(stdout: Stdout, n: usize) -> io::Result<()> {
    print!(stdout; "{n} ")
}

fn print_digest(stdout: Stdout, bytes: &[u8]) -> io::Result<()> {
    print!(stdout; "{:016x}", digest(bytes))
}

fn print_ran(stdout: Stdout, ran: Ran, file: &[u8]) -> io::Result<()> {
    let ending = ran.ending;
    print_number(stdout, exec::ending_number(ending) as usize)?;
    print_number(stdout, ran.done)?;
    print_number(stdout, ran.qc as usize)?;
    print_digest(stdout, file)
}

// ---- a register asked for

// Every byte becomes another, so that a digest tells which were lent. Answers how many.
fn complement(part: &mut [u8]) -> usize {
    for byte in &mut *part {
        *byte ^= 255;
    }
    part.len()
}

fn print_check(stdout: Stdout, l: usize, size: usize, n: usize) -> io::Result<()> {
    let asked = check_register(l, size, n);
    print_number(stdout, asked_number(asked) as usize)
}

fn print_part(stdout: Stdout, part: &[u8]) -> io::Result<()> {
    print_number(stdout, part.len())?;
    print_digest(stdout, part)?;
    print!(stdout; " ")
}

fn print_register(stdout: Stdout, l: usize, file: &mut [u8], n: usize) -> io::Result<()> {
    print_check(stdout, l, file.len(), n)?;
    print_part(stdout, register_read(l, file, n))?;
    print_number(stdout, complement(register(l, file, n)))?;
    print_digest(stdout, file)
}

// ---- cases

fn wide(x: u32) -> usize {
    x as usize
}

// Room for a file, of which `size` bytes will be lent.
fn byte_space(size: usize) -> [u8; 8704]
    requires { size ≤ 8704 }
    ensures { (size ≤ length result) × (size ≡ length (take size result)) }
{
    [0; 8704]
}

// Room for a program, of which `count` words will be lent.
fn word_space(count: usize) -> [u32; 4097]
    requires { count ≤ 4097 }
    ensures { (count ≤ length result) × (count ≡ length (take count result)) }
{
    [0; 4097]
}

fn print_run(
    stdin: Stdin,
    stdout: Stdout,
    l: usize,
    file: &mut [u8],
    qc: bool,
    words: &mut [u32],
) -> io::Result<bool> {
    if read_words(stdin, words).is_err() {
        return Ok(false);
    }
    print_ran(stdout, exec::run(l, file, qc, words), file)?;
    Ok(true)
}

fn run_sized(
    stdin: Stdin,
    stdout: Stdout,
    l: usize,
    file: &mut [u8],
    qc: bool,
    count: usize,
) -> io::Result<bool> {
    if 4097 < count {
        return Ok(false);
    }
    let mut words = word_space(count);
    print_run(stdin, stdout, l, file, qc, &mut words[..count])
}

fn print_case(
    stdin: Stdin,
    stdout: Stdout,
    kind: u32,
    l: usize,
    file: &mut [u8],
    qc: bool,
    number: u32,
) -> io::Result<bool> {
    match kind {
        1 => {
            return run_sized(stdin, stdout, l, file, qc, wide(number));
        }
        2 => print_ran(stdout, exec::execute(l, file, qc, number), file)?,
        3 => print_register(stdout, l, file, wide(number))?,
        _ => {
            return Ok(false);
        }
    }
    Ok(true)
}

fn case_on(stdin: Stdin, stdout: Stdout, head: [u32; 6], file: &mut [u8]) -> io::Result<bool> {
    if read_file(stdin, file, head[5]).is_err() {
        return Ok(false);
    }
    if !print_case(
        stdin,
        stdout,
        head[0],
        wide(head[1]),
        file,
        head[3] == 1,
        head[4],
    )? {
        return Ok(false);
    }
    print!(stdout; "\n")?;
    Ok(true)
}

fn case_sized(stdin: Stdin, stdout: Stdout, head: [u32; 6], size: usize) -> io::Result<bool> {
    if 8704 < size {
        return Ok(false);
    }
    let mut bytes = byte_space(size);
    case_on(stdin, stdout, head, &mut bytes[..size])
}

fn run_case(stdin: Stdin, stdout: Stdout) -> io::Result<bool> {
    let mut head = [0u32; 6];
    if read_words(stdin, &mut head).is_err() {
        return Ok(false);
    }
    case_sized(stdin, stdout, head, wide(head[2]))
}

fn main(rt: HostRuntime) -> io::Result<()> {
    for _ in 0..MOST {
        if !run_case(rt.stdin(), rt.stdout())? {
            break;
        }
    }
    Ok(())
}
