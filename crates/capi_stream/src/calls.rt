// The two calls.
ghost use Rattle.std.specs.Prelude.{◌≡◌, ◌%◌};
ghost use Rattle.trace.specs.Number.{told_number, told_kind, told_place};
ghost use Rattle.capi_stream.specs.Calls.{parts_packed, FeedCall, EndCall};

use crate::marks::{marks_of, store};
use stream::feed::{close, feed};
use stream::number::{end_number, told_kind, told_number, told_place};
use stream::state::Marks;
use trace::types::Told;

const SIZE: usize = 20544;

// The image and the contents come before the marks.
const HELD: usize = 20480;

const BAD_FIELDS: u32 = 32;

// The number in bits 0 to 7, the kind in bits 8 to 15, the place in bits 16 to 31, the bytes taken in bits 32 to 63. Of a state that no stream leaves, what
// does not fit is cut.
fn packed(told: Told, taken: usize) -> u64
    ensures { result ≡ parts_packed (told_number told) (told_kind told) (told_place told % 0x1_0000) (taken % 0x1_0000_0000) }
{
    let number = told_number(told) as u64;
    let kind = told_kind(told) as u64;
    let place = (told_place(told) % 0x1_0000) as u64;
    let few = (taken % 0x1_0000_0000) as u64;
    number + (kind << 8) + (place << 16) + (few << 32)
}

// Takes bytes up to and with the first that brings a verdict or a refusal, else all.
#[unsafe(no_mangle)]
pub extern "C" fn kob_stream_feed(state: &mut [u8], bytes: &[u8]) -> u64
    ensures { FeedCall state.old bytes.now result state.new }
{
    if state.len() != SIZE {
        return BAD_FIELDS as u64;
    }
    let marks = marks_of(&state[HELD..]);
    let stepped = feed(&mut state[..HELD], marks, bytes);
    store(&mut state[HELD..], stepped.marks);
    packed(stepped.told, stepped.taken)
}

// Says that the line has ended.
#[unsafe(no_mangle)]
pub extern "C" fn kob_stream_end(state: &mut [u8]) -> u32
    ensures { EndCall state.old result state.new }
{
    if state.len() != SIZE {
        return BAD_FIELDS;
    }
    let marks = marks_of(&state[HELD..]);
    let end = close(marks);
    state[..HELD].fill(0);
    store(&mut state[HELD..], Marks::ended(end));
    end_number(end) as u32
}
