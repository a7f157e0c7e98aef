// Input in pieces: one read, or as many as fill a lent buffer.
#![tactic(auto)]

ghost use Rattle.std.specs.Prelude.{◌≡◌, length, IfOk, IfErr};
ghost use Rattle.input.specs.Filled.{ReadInto};

use std::error::Error;
use std::io::Read;
use std::{fmt, io};

// A read failed, after so many bytes.
#[derive(Clone, Copy, Debug, PartialEq, Eq)]
pub struct ReadError {
    pub length: usize,
}

impl fmt::Display for ReadError {
    fn fmt<W: fmt::Write>(&self, f: &mut fmt::Formatter<W>) -> fmt::Result {
        write!(f, "the input could not be read")
    }
}

impl Error for ReadError {}

// One read: what the input has by now, at most as much as the buffer takes. No byte is the input's end.
pub fn read_some<R: Read>(input: &mut R, buf: &mut [u8]) -> io::Result<usize>
    ensures ok { IfOk result (λ n. ReadInto n buf.old buf.new) }
    ensures kept { length buf.new ≡ length buf.old }
{
    input.read(buf)
}

// Reads until the buffer is full, the input ends or a read fails. A short read is not the end, and a failed one is told from it.
pub fn fill<R: Read>(input: &mut R, buf: &mut [u8]) -> Result<usize, ReadError>
    ensures ok { IfOk result (λ n. ReadInto n buf.old buf.new) }
    ensures err { IfErr result (λ e. ReadInto e.length buf.old buf.new) }
{
    let mut length = 0;
    while length < buf.len() {
        let n = read_some(input, &mut buf[length..]).map_err(|_| ReadError { length })?;
        if n == 0 {
            break;
        }
        length += n;
    }
    Ok(length)
}
