// The bytes of a call, and the end.
ghost use Rattle.std.specs.Prelude.{◌≡◌, ◌<◌, ◌≤◌, length};
ghost use Rattle.stream.specs.Steps.{Takes, Fills, FeedsHeld, ClosesMarks};

use crate::bodies::bodies_bytes;
use crate::contents::contents_byte;
use crate::state::{IMAGE, Marks, Phase, Stepped};
use trace::types::{Told, TraceRefusal};

// Some of the bytes: up to and with the last of a part or a number, or all. Held are the image and the contents.
fn step(held: &mut [u8], m: Marks, bytes: &[u8]) -> Stepped
    requires { (length held.old ≡ 20480) × (0 < length bytes.now) }
    ensures { Takes held.old m bytes.now result held.new }
{
    match m.phase {
        Phase::Contents => contents_byte(&mut held[IMAGE..], m, bytes[0]),
        Phase::Bodies => bodies_bytes(held, m, bytes),
        // Not met: `feed` has asked, and a refusal ends the loop of `take`.
        Phase::Ended(end) => Stepped::refused(end),
    }
}

// The bytes up to and with the first that brings a verdict or a refusal, else all.
fn take(held: &mut [u8], m: Marks, bytes: &[u8]) -> Stepped
    requires { length held.old ≡ 20480 }
    ensures { Fills held.old m bytes.now result held.new }
{
    let mut marks = m;
    let mut at = 0;
    // Each step takes as many bytes as it says, so no iterator counts them.
    while at < bytes.len() {
        let stepped = step(held, marks, &bytes[at..]);
        marks = stepped.marks;
        at += stepped.taken;
        let Told::Nothing = stepped.told else {
            return Stepped {
                taken: at,
                told: stepped.told,
                marks,
            };
        };
    }
    Stepped {
        taken: at,
        told: Told::Nothing,
        marks,
    }
}

// A call with some bytes, for a state whose image and contents are lent.
pub fn feed(held: &mut [u8], m: Marks, bytes: &[u8]) -> Stepped
    requires { length held.old ≡ 20480 }
    ensures { FeedsHeld held.old m bytes.now result held.new }
{
    if let Phase::Ended(end) = m.phase {
        return Stepped {
            taken: 0,
            told: Told::Over(end),
            marks: m,
        };
    }
    let took = take(held, m, bytes);
    if let Told::Over(_) = took.told {
        held.fill(0);
    }
    took
}

// What an end tells.
pub fn close(m: Marks) -> Result<(), TraceRefusal>
    ensures { ClosesMarks m result }
{
    match m.phase {
        Phase::Contents => Err(TraceRefusal::BadContents),
        Phase::Bodies => {
            if m.case == m.cases {
                Ok(())
            } else {
                Err(TraceRefusal::BadTotal)
            }
        }
        Phase::Ended(end) => end,
    }
}
