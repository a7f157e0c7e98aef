// Bytes of a body as they come: its flags, its words and its files.
ghost use Rattle.std.specs.Prelude.{◌≡◌, true, List, [], ◌∷◌, ℕ, ◌+◌, ◌*◌, ◌%◌, ◌<◌, ◌≤◌, length};
ghost use Rattle.trace.specs.Trace.{body_size};
ghost use Rattle.stream.specs.Steps.{Allowed, NumberEnds, NumberByte, WordNext, NumberStands, BytesMove, Moves};

use crate::bytes::with_byte;
use crate::case::{compare, execute, flag_after, flag_before};
use crate::state::{Course, Standing};
use codec::word_at;
use replay::body::load;

// How many bytes were taken, and how far the body has come.
#[derive(Clone, Copy)]
pub struct Moved {
    pub taken: usize,
    pub course: Course,
}

// Where the words of a body stand: behind QC before and the file before.
fn words_place(l: usize) -> usize
    requires { l ≤ 2048 }
    ensures { result ≡ 4 + 4 * l }
{
    4 + (l << 2)
}

// Where QC after stands.
fn flag_place(l: usize, w: usize) -> usize
    requires { (l ≤ 2048) × (w ≤ 4096) }
    ensures { result ≡ 4 + 4 * l + 4 * w }
{
    4 + (l << 2) + (w << 2)
}

// What a number makes of a case: the one with whose last byte the body has `at` bytes.
fn number(image: &mut [u8], l: usize, w: usize, at: usize, s: Standing, held: &[u8]) -> Standing
    requires image_len { (length image.old ≡ 8192) × (length held.now ≡ 4) }
    requires allowed { Allowed l w × NumberEnds l w at }
    ensures { NumberStands l w at held.now image.old s image.new result }
{
    if at == 4 {
        return flag_before(word_at(held, 0));
    }
    if at <= flag_place(l, w) {
        let size = l << 2;
        let done = (at - words_place(l) - 4) >> 2;
        return execute(&mut image[..size], l, done, s, held);
    }
    flag_after(s, word_at(held, 0))
}

// One byte of a number.
fn number_byte(image: &mut [u8], l: usize, w: usize, c: Course, b: u8) -> Course
    requires image_len { length image.old ≡ 8192 }
    requires allowed { Allowed l w × NumberByte l w c.at }
    ensures { BytesMove l w (b ∷ []) image.old c image.new result }
{
    let at = c.at;
    let held = with_byte(c.held, at, b);
    if at % 4 == 3 {
        let standing = number(image, l, w, at + 1, c.standing, &held);
        return Course {
            at: at + 1,
            held: [0u8; 4],
            standing,
        };
    }
    Course {
        at: at + 1,
        held,
        ..c
    }
}

// Bytes of the file before.
fn file_bytes(image: &mut [u8], l: usize, c: Course, bytes: &[u8]) -> Course
    requires image_len { length image.old ≡ 8192 }
    requires l_bound { (l ≤ 2048) × (4 ≤ c.at) × (c.at + length bytes.now ≤ 4 + 4 * l) }
    ensures { (W : ℕ) → BytesMove l W bytes.now image.old c image.new result }
{
    let at = c.at;
    let to = at + bytes.len();
    load(&mut image[at - 4..to - 4], bytes);
    Course { at: to, ..c }
}

// Whole words.
fn word_bytes(image: &mut [u8], l: usize, w: usize, c: Course, bytes: &[u8]) -> Course
    requires image_len { length image.old ≡ 8192 }
    requires allowed { Allowed l w × (4 + 4 * l ≤ c.at) × (c.at + length bytes.now ≤ 4 + 4 * l + 4 * w) }
    requires at_value { (c.at % 4 ≡ 0) × (length bytes.now % 4 ≡ 0) }
    ensures { BytesMove l w bytes.now image.old c image.new result }
{
    let at = c.at;
    let size = l << 2;
    let done = (at - words_place(l)) >> 2;
    let standing = execute(&mut image[..size], l, done, c.standing, bytes);
    Course {
        at: at + bytes.len(),
        standing,
        ..c
    }
}

// Bytes of the file after, from its byte `from` on.
fn left_bytes(image: &[u8], l: usize, from: usize, c: Course, bytes: &[u8]) -> Course
    requires image_len { (length image.now ≡ 8192) × (l ≤ 2048) }
    requires at_bound { (c.at ≤ 32776) × (from + length bytes.now ≤ 4 * l) }
    ensures { (W : ℕ) → Allowed l W → c.at ≡ 8 + 4 * l + 4 * W + from → BytesMove l W bytes.now image.now c image.now result }
{
    let to = from + bytes.len();
    let standing = compare(&image[from..to], from, c.standing, bytes);
    Course {
        at: c.at + bytes.len(),
        standing,
        ..c
    }
}

// Whether whole words come next.
fn at_words(l: usize, w: usize, at: usize, size: usize) -> bool
    requires { (l ≤ 2048) × (w ≤ 4096) }
    ensures { result ≡ true → WordNext l w at size }
{
    (words_place(l) <= at) & (at < flag_place(l, w)) & (at % 4 == 0) & (4 <= size)
}

// Bytes of a body: as many as there are of the part that comes next, or one of a number.
pub fn body_bytes(image: &mut [u8], l: usize, w: usize, c: Course, bytes: &[u8]) -> Moved
    requires image_len { (length image.old ≡ 8192) × (0 < length bytes.now) }
    requires allowed { Allowed l w × (c.at < body_size l w) }
    ensures { Moves l w bytes.now image.old c result.taken image.new result.course }
{
    let at = c.at;
    let words = words_place(l);
    let flag = flag_place(l, w);
    if (4 <= at) & (at < words) {
        let n = bytes.len().min(words - at);
        let course = file_bytes(image, l, c, &bytes[..n]);
        return Moved { taken: n, course };
    }
    if flag + 4 <= at {
        let from = at - flag - 4;
        let n = bytes.len().min((l << 2) - from);
        let course = left_bytes(image, l, from, c, &bytes[..n]);
        return Moved { taken: n, course };
    }
    if at_words(l, w, at, bytes.len()) {
        let n = (bytes.len() - bytes.len() % 4).min(flag - at);
        let course = word_bytes(image, l, w, c, &bytes[..n]);
        return Moved { taken: n, course };
    }
    let course = number_byte(image, l, w, c, bytes[0]);
    Moved { taken: 1, course }
}
