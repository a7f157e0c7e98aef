// Lists the instruction words of standard input on standard output.
#![tactic(auto)]

ghost use Rattle.std.specs.Prelude.{◌≤◌};

use input::ReadError;
use std::fmt;
use std::io::{Stdin, Stdout};

// The most words that are listed.
const LIMIT: usize = 1048576;

// Bytes of one piece: a multiple of 4.
const PIECE: usize = 65536;

// The room that a full piece asks for: 21 bytes for each of its 16,384 words, and 32.
const ROOM: usize = 344096;

// The words up to the limit fill 64 pieces. One more piece shows whether a whole word follows.
const PIECES: usize = 65;

// Why it stops before the listing's end.
#[derive(Clone, Copy)]
enum Failure {
    Unread,
    Unwritten,
}

impl fmt::Display for Failure {
    fn fmt<W: fmt::Write>(&self, f: &mut fmt::Formatter<W>) -> fmt::Result {
        match self {
            Failure::Unread => write!(f, "the input could not be read"),
            Failure::Unwritten => write!(f, "the output could not be written"),
        }
    }
}

impl From<ReadError> for Failure {
    fn from(_e: ReadError) -> Failure {
        Failure::Unread
    }
}

// Lists and writes one piece, where `done` words were listed before. How many are listed now, or none where the listing is complete.
fn list_bytes(
    done: usize,
    bytes: &[u8],
    last: bool,
    out: &mut [u8],
    stdout: Stdout,
) -> Result<Option<usize>, Failure> {
    let Some(part) = listing::list_part(done, bytes, last, out) else {
        // Not reached: ROOM is enough for a full piece.
        return Ok(None);
    };
    if stdout.write_all(&out[..part.length]).is_err() {
        return Err(Failure::Unwritten);
    }
    Ok((!part.ended).then_some(part.done))
}

// Bytes to read next: a full piece, but no further than one word past the limit, so that LIMIT waits for nothing more.
fn wanted(done: usize, most: usize) -> usize
    ensures { result ≤ most }
{
    if LIMIT < done {
        return 0;
    }
    ((LIMIT - done << 2) + 4).min(most)
}

// Reads, lists and writes the pieces. A piece that does not fill the buffer is the last.
fn list_all(mut stdin: Stdin, stdout: Stdout) -> Result<(), Failure> {
    let mut buf = [0u8; PIECE];
    let mut out = [0u8; ROOM];
    let mut done = 0;
    // Nothing says that the input ends, so the loop counts the pieces.
    for _ in 0..PIECES {
        let most = wanted(done, buf.len());
        let n = input::fill(&mut stdin, &mut buf[..most])?;
        match list_bytes(done, &buf[..n], n < most, &mut out, stdout)? {
            Some(next) => done = next,
            None => return Ok(()),
        }
    }
    Ok(())
}

fn main(rt: HostRuntime) {
    if let Err(failure) = list_all(rt.stdin(), rt.stdout()) {
        let _ = eprintln!(rt; "kob list: {failure}");
    }
}
