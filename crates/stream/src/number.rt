// The numbers of request A10 for every answer, and the values beside them.
ghost use Rattle.std.specs.Prelude.{◌≡◌};
ghost use Rattle.trace.specs.Number.{end_number, told_number, told_kind, told_place};

use replay::number::{verdict_kind, verdict_place};
use trace::types::{Told, TraceRefusal};

pub fn end_number(end: Result<(), TraceRefusal>) -> u8
    ensures { result ≡ end_number end }
{
    match end {
        Ok(()) => 0,
        Err(refusal) => refusal as u8,
    }
}

pub fn told_number(t: Told) -> u8
    ensures { result ≡ told_number t }
{
    match t {
        Told::Nothing | Told::Case(_) => 0,
        Told::Over(end) => end_number(end),
    }
}

pub fn told_kind(t: Told) -> u8
    ensures { result ≡ told_kind t }
{
    match t {
        Told::Case(v) => verdict_kind(v),
        Told::Nothing | Told::Over(_) => 0,
    }
}

pub fn told_place(t: Told) -> usize
    ensures { result ≡ told_place t }
{
    match t {
        Told::Case(v) => verdict_place(v),
        Told::Nothing | Told::Over(_) => 0,
    }
}
