// What is said of a case, as its flags, its words and its file after come.
ghost use Rattle.std.specs.Prelude.{◌≡◌, ◌+◌, ◌*◌, ◌<◌, ◌≤◌, length, true, false};
ghost use Rattle.regfile.specs.Sweep.{Held};
ghost use Rattle.stream.specs.Body.{stop_said};
ghost use Rattle.stream.specs.Steps.{pick_open, standing_before, standing_after, standing_beside, worked};

use crate::state::Standing;
use isa::types::Ending;
use replay::body::flags;
use replay::compare::first_difference;
use replay::program::run_bytes;
use trace::types::Verdict;

// QC before.
pub fn flag_before(n: u32) -> Standing
    ensures { result ≡ standing_before n }
{
    if n < 2 {
        return Standing {
            said: Verdict::Agrees,
            qc: n == 1,
        };
    }
    Standing {
        said: Verdict::BadFlag,
        qc: false,
    }
}

// What is said where the run ends so after `done` words. The file is whole, so the run is refused for nothing.
fn stopped(ending: Ending, done: usize) -> Verdict
    ensures { result ≡ stop_said ending done }
{
    match ending {
        Ending::Outside => Verdict::Outside(done),
        Ending::Reserved => Verdict::Reserved(done),
        _ => Verdict::Agrees,
    }
}

// Words behind `done` others. They are executed unless the run has stopped or QC before is neither 0 nor 1.
pub fn execute(file: &mut [u8], l: usize, done: usize, s: Standing, words: &[u8]) -> Standing
    requires { Held l file.old × (length words.now ≤ 16384) × (done ≤ 4096) }
    ensures { record { standing = result; file = file.new } ≡ worked l done s file.old words.now }
{
    let Verdict::Agrees = s.said else {
        return s;
    };
    let ran = run_bytes(l, file, s.qc, words);
    Standing {
        said: stopped(ran.ending, done + ran.done),
        qc: ran.qc,
    }
}

// QC after.
pub fn flag_after(s: Standing, n: u32) -> Standing
    ensures { result ≡ standing_after s n }
{
    if n < 2 {
        let Verdict::Agrees = s.said else {
            return s;
        };
        return Standing {
            said: flags(s.qc, n == 1),
            ..s
        };
    }
    Standing {
        said: Verdict::BadFlag,
        ..s
    }
}

// Whether the file after is still to be compared: the run did not stop, the flags are 0 or 1, and no byte differs so far.
fn is_open(said: Verdict) -> bool
    ensures { result ≡ pick_open said true false }
{
    matches!(said, Verdict::Agrees | Verdict::FlagDiffers)
}

// Bytes of the file after, beside those that the run left, which are the file's from byte `from` on.
pub fn compare(left: &[u8], from: usize, s: Standing, bytes: &[u8]) -> Standing
    requires { (length bytes.now ≡ length left.now) × (from + length left.now ≤ 8192) }
    ensures { result ≡ standing_beside s from left.now bytes.now }
{
    if is_open(s.said) {
        let i = first_difference(left, bytes);
        if i < left.len() {
            return Standing {
                said: Verdict::FileDiffers(from + i, left[i]),
                ..s
            };
        }
    }
    s
}
