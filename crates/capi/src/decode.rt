// Decoding a word into eight numbers.
ghost use Rattle.std.specs.Prelude.{◌≡◌};
ghost use Rattle.capi.specs.Decode.{decode_call};

use fields::{fields_of, put_fields};
use isa::types::Decoded;

// The operation's fields are written where the answer is 0.
#[unsafe(no_mangle)]
pub extern "C" fn kob_decode(word: u32, fields: &mut [u32]) -> u32
    ensures { record { answer = result; fields = fields.new } ≡ decode_call word fields.old }
{
    if fields.len() != 8 {
        return 32;
    }
    let decoded = codec::decode(word);
    match decoded {
        Decoded::Operation(op) => {
            put_fields(fields, fields_of(op));
            0
        }
        Decoded::Reserved => 5,
        Decoded::Outside => 4,
    }
}
