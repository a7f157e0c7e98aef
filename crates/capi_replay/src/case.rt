// Replaying a case of a trace.
ghost use Rattle.std.specs.Prelude.{◌≡◌, ◌<◌};
ghost use Rattle.trace.specs.Number.{judged_place};
ghost use Rattle.capi_replay.specs.Replay.{judged_packed, replay_call};

use replay::judge;
use replay::number::{judged_kind, judged_number, judged_place};
use trace::types::{CaseRefusal, Verdict};

fn wide(x: u8) -> u64
    ensures { (result ≡ x) × (result < 0x100) }
{
    x as u64
}

// The number in bits 0 to 7, the kind in bits 8 to 15, the place in bits 16 to 31. A file has at most 8,192 bytes, and a program fewer words.
fn packed(judged: Result<Verdict, CaseRefusal>) -> u64
    requires { judged_place judged < 8192 }
    ensures { result ≡ judged_packed judged }
{
    let place = judged_place(judged) as u64;
    wide(judged_number(judged)) + (wide(judged_kind(judged)) << 8) + (place << 16)
}

// The verdict of case n of a lent trace, or why there is none.
#[unsafe(no_mangle)]
pub extern "C" fn kob_replay(trace: &[u8], n: usize) -> u64
    ensures { result ≡ replay_call trace.now n }
{
    packed(judge(trace, n))
}
