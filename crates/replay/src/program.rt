// The words of a body, taken from its bytes as the run needs them.
ghost use Rattle.std.specs.Prelude.{◌≡◌, ◌+◌, ◌*◌, ◌<◌, ◌≤◌, length};
ghost use Rattle.isa.specs.Bytes.{words_of};
ghost use Rattle.isa.specs.Run.{outcome_of};
ghost use Rattle.regfile.specs.Sweep.{Held};
ghost use Rattle.replay.specs.Body.{WordsFrom};

use codec::word_at;
use exec::run;
use isa::types::{Ending, Ran};

// Words taken at a time: so many that what a run sets up costs little beside them.
const TAKEN: usize = 16;

// The n words from a place on, and zeros.
fn words_at(bytes: &[u8], at: usize, n: usize) -> [u32; TAKEN]
    requires { (n ≤ 16) × (at + 4 * n ≤ length bytes.now) }
    ensures { WordsFrom bytes.now at n result }
{
    let mut words = [0u32; TAKEN];
    for i in 0..n {
        words[i] = word_at(bytes, at + (i << 2));
    }
    words
}

// Runs a program that is given as bytes. `replayed_on` has a checked file.
pub fn run_bytes(l: usize, file: &mut [u8], qc: bool, bytes: &[u8]) -> Ran
    requires held { Held l file.old }
    requires bytes_len_bound { length bytes.now ≤ 16384 }
    ensures { record { answer = result; file = file.new } ≡ outcome_of l file.old qc (words_of bytes.now) }
{
    let count = bytes.len() >> 2;
    let mut flag = qc;
    let mut done = 0;
    while done < count {
        let n = TAKEN.min(count - done);
        let words = words_at(bytes, done << 2, n);
        let ran = run(l, file, flag, &words[..n]);
        let Ending::Done = ran.ending else {
            return Ran {
                ending: ran.ending,
                done: done + ran.done,
                qc: ran.qc,
            };
        };
        flag = ran.qc;
        done += n;
    }
    Ran {
        ending: Ending::Done,
        done,
        qc: flag,
    }
}
