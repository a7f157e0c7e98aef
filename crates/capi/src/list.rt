// The listing of a whole buffer.
ghost use Rattle.std.specs.Prelude.{◌≡◌};
ghost use Rattle.capi.specs.List.{listed_packed, list_call};

use isa::types::ListedPart;
use listing::list_part;

// The length of the text, or all ones where there was no room.
fn packed_listing(listed: Option<ListedPart>) -> u64
    ensures { result ≡ listed_packed listed }
{
    match listed {
        Some(part) => part.length as u64,
        None => 0xFFFF_FFFF_FFFF_FFFF,
    }
}

// Lists all words of a buffer into another.
#[unsafe(no_mangle)]
pub extern "C" fn kob_list(bytes: &[u8], out: &mut [u8]) -> u64
    ensures { record { answer = result; out = out.new } ≡ list_call bytes.now out.old }
{
    packed_listing(list_part(0, bytes, true, out))
}
