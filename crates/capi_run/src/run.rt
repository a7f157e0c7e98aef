// Running a program.
ghost use Rattle.std.specs.Prelude.{◌≡◌, ◌<◌, ◌≤◌};
ghost use Rattle.capi_run.specs.Run.{flag_packed, ran_packed, run_call};

use exec::{ending_number, run};
use isa::types::Ran;

// The flag in bit 8.
fn flag_bit(qc: bool) -> u64
    ensures { (result ≡ flag_packed qc) × (result ≤ 0x100) }
{
    if qc { 0x100 } else { 0 }
}

fn wide(x: u8) -> u64
    ensures { (result ≡ x) × (result < 0x100) }
{
    x as u64
}

// The number in bits 0 to 7, the flag in bit 8, the words done in bits 16 to 31. A run does at most 4,096 words.
fn packed_run(ran: Ran) -> u64
    requires { ran.done ≤ 4096 }
    ensures { result ≡ ran_packed ran }
{
    let ending = ran.ending;
    let done = ran.done as u64;
    wide(ending_number(ending)) + flag_bit(ran.qc) + (done << 16)
}

// Runs a program on a lent register file.
#[unsafe(no_mangle)]
pub extern "C" fn kob_run(l: usize, file: &mut [u8], qc: bool, words: &[u32]) -> u64
    ensures { record { answer = result; file = file.new } ≡ run_call l file.old qc words.now }
{
    packed_run(run(l, file, qc, words))
}
