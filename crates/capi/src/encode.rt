// Writing the word that eight numbers name.
ghost use Rattle.std.specs.Prelude.{◌≡◌};
ghost use Rattle.capi.specs.Encode.{written_packed, named_packed, encode_call};

use fields::{named_by, read_numbers};
use isa::types::{Op, WriteRefusal};

// The number in the low half, the word in the high half.
#[tactic(auto, unfolding(crate::specs::Encode::written_packed, isa::specs::Number::written_number, isa::specs::Number::written_word))]
fn packed_written(written: Result<u32, WriteRefusal>) -> u64
    ensures { result ≡ written_packed written }
{
    match written {
        Ok(word) => (word as u64) << 32,
        Err(refusal) => refusal as u64,
    }
}

fn packed_named(named: Option<Op>) -> u64
    ensures { result ≡ named_packed named }
{
    match named {
        Some(op) => packed_written(codec::encode(op)),
        None => 33,
    }
}

// Writes the word that eight numbers name.
#[unsafe(no_mangle)]
pub extern "C" fn kob_encode(fields: &[u32]) -> u64
    ensures { result ≡ encode_call fields.now }
{
    if fields.len() != 8 {
        return 32;
    }
    packed_named(named_by(read_numbers(fields)))
}
