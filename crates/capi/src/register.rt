// Where a register stands in a file.
ghost use Rattle.std.specs.Prelude.{◌≡◌};
ghost use Rattle.isa.specs.Number.{asked_number};
ghost use Rattle.capi.specs.Register.{Place, part_packed, register_call};

use isa::types::RegisterRefusal;
use regfile::check::{asked_number, check_register};
use regfile::part::offset;

fn number_of(asked: Result<(), RegisterRefusal>) -> u64
    ensures { result ≡ asked_number asked }
{
    asked_number(asked) as u64
}

// The start in bits 16 to 39 and the length in bits 40 to 63.
fn packed_part(start: usize, length: usize) -> u64
    requires { Place start length }
    ensures { result ≡ part_packed start length }
{
    ((start as u64) << 16) + ((length as u64) << 40)
}

// The number in bits 0 to 7; the start and the length are 0 on a refusal.
#[unsafe(no_mangle)]
pub extern "C" fn kob_register(l: usize, size: usize, n: usize) -> u64
    ensures { result ≡ register_call l size n }
{
    let asked = check_register(l, size, n);
    if asked.is_err() {
        return number_of(asked);
    }
    let length = l >> 3;
    packed_part(offset(length, n), length)
}
