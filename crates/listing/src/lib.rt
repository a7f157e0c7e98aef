// The listing of instruction words: lines of text in a lent buffer.
#![tactic(auto)]

ghost use Rattle.std.specs.Prelude.{◌≡◌, ◌++◌, ◌+◌, ◌-◌, ◌*◌, ◌/◌, ◌<◌, ◌≤◌, leb, ltb, length, take};
ghost use Rattle.listing.specs.Listing.{ascii, hex_digit, hex_of, operation_name, name_of, word_line, lines_of, decimal_of, count_line, tail_line, limit, over_of, last_of, more_of};
ghost use Rattle.listing.specs.Call.{Wrote, text_outcome, outcome_of_part};
ghost use Rattle.isa.specs.Bytes.{words_of};
ghost use Rattle.isa.specs.Decode.{decode_of};

use codec::word_at;
use isa::types::{Decoded, ListedPart, Op};

// The most words that are listed.
const LIMIT: usize = 1048576;

// Puts a text at a place and answers the place past it. Every byte of a listing is stored here. By a loop: `copy_from_slice` asks the C library for
// memmove here, and the archive needs memcpy and memset alone.
fn put_text(out: &mut [u8], at: usize, text: &[u8]) -> usize
    requires { at + length text.now ≤ length out.old }
    ensures { Wrote out.old at text.now result out.new }
{
    for i in 0..text.len() {
        out[at + i] = text[i];
    }
    at + text.len()
}

const DIGITS: [u8; 16] = *b"0123456789ABCDEF";

fn digit(n: u32) -> u8
    requires { n < 16 }
    ensures { result ≡ hex_digit n }
{
    DIGITS[n as usize]
}

// The eight digits of a word, and a space.
fn hex_of(word: u32) -> [u8; 9]
    ensures { result ≡ hex_of word ++ ascii " " }
{
    [
        digit(word / 0x1000_0000 % 16),
        digit(word / 0x100_0000 % 16),
        digit(word / 0x10_0000 % 16),
        digit(word / 0x1_0000 % 16),
        digit(word / 0x1000 % 16),
        digit(word / 0x100 % 16),
        digit(word / 0x10 % 16),
        digit(word % 16),
        b' ',
    ]
}

// A family's name: each arm puts a text of its own, whose length the compiler knows.
fn put_family(out: &mut [u8], at: usize, op: Op) -> usize
    requires { at + 11 ≤ length out.old }
    ensures { Wrote out.old at (ascii (operation_name op)) result out.new }
{
    match op {
        Op::Cadd(_) => put_text(out, at, b"CADD"),
        Op::Sqcadd(_) => put_text(out, at, b"SQCADD"),
        Op::Cmla(_) => put_text(out, at, b"CMLA"),
        Op::CmlaIndexed(_) => put_text(out, at, b"CMLA-I"),
        Op::Sqrdcmlah(_) => put_text(out, at, b"SQRDCMLAH"),
        Op::SqrdcmlahIndexed(_) => put_text(out, at, b"SQRDCMLAH-I"),
        Op::Sqrdmlah(_) => put_text(out, at, b"SQRDMLAH"),
        Op::Sqrdmlsh(_) => put_text(out, at, b"SQRDMLSH"),
        Op::Sqdmulh(_) => put_text(out, at, b"SQDMULH"),
    }
}

fn put_name(out: &mut [u8], at: usize, decoded: Decoded) -> usize
    requires { at + 11 ≤ length out.old }
    ensures { Wrote out.old at (name_of decoded) result out.new }
{
    match decoded {
        Decoded::Operation(op) => put_family(out, at, op),
        Decoded::Reserved => put_text(out, at, b"RESERVED"),
        Decoded::Outside => put_text(out, at, b"OUTSIDE"),
    }
}

fn put_line(out: &mut [u8], at: usize, word: u32) -> usize
    requires { at + 21 ≤ length out.old }
    ensures { Wrote out.old at (word_line word) result out.new }
{
    let hex = hex_of(word);
    let named = put_text(out, at, &hex);
    let end = put_name(out, named, codec::decode(word));
    put_text(out, end, b"\n")
}

// The lines of the first `count` words, from the buffer's start.
fn put_lines(out: &mut [u8], bytes: &[u8], count: usize) -> usize
    requires { (count ≤ length bytes.now / 4) × (21 * count ≤ length out.old) }
    ensures { Wrote out.old 0 (lines_of (take count (words_of bytes.now))) result out.new }
{
    let mut at = 0;
    for k in 0..count {
        at = put_line(out, at, word_at(bytes, k << 2));
    }
    at
}

// A number in decimal: the digits before the last one first.
fn put_decimal(out: &mut [u8], at: usize, n: usize) -> usize
    requires { at + length (decimal_of n) ≤ length out.old }
    ensures { Wrote out.old at (decimal_of n) result out.new }
{
    if n < 10 {
        return put_text(out, at, &[digit(n as u32)]);
    }
    let last = put_decimal(out, at, n / 10);
    put_text(out, last, &[digit((n % 10) as u32)])
}

// A label, a number and the line's end.
fn put_count(out: &mut [u8], at: usize, label: &[u8], n: usize) -> usize
    requires { (n ≤ limit) × (at + length label.now + 8 ≤ length out.old) }
    ensures { Wrote out.old at (count_line label.now n) result out.new }
{
    let number = put_text(out, at, label);
    let end = put_decimal(out, number, n);
    put_text(out, end, b"\n")
}

fn put_tail(out: &mut [u8], at: usize, n: usize) -> usize
    requires { (n < 4) × (at + 13 ≤ length out.old) }
    ensures { Wrote out.old at (tail_line n) result out.new }
{
    if n == 0 {
        return at;
    }
    put_count(out, at, b"TAIL ", n)
}

// Whether the buffer has room for so many lines and the last lines. No sum or product that could be too large.
fn has_room(room: usize, words: usize) -> bool
    ensures { result ≡ leb (21 * words + 32) room }
{
    if room < 32 {
        return false;
    }
    words <= (room - 32) / 21
}

// Whether more words are there than may be listed.
fn is_over(done: usize, words: usize) -> bool
    ensures { result ≡ ltb limit (done + words) }
{
    if LIMIT < done {
        return true;
    }
    LIMIT - done < words
}

// How many more words may be listed.
fn words_left(done: usize) -> usize
    ensures { result ≡ limit - done }
{
    if LIMIT < done {
        return 0;
    }
    LIMIT - done
}

// The lines up to the limit, and the line that says so.
fn list_over(done: usize, bytes: &[u8], out: &mut [u8]) -> ListedPart
    requires limit_bound { limit < done + length bytes.now / 4 }
    requires bytes_in_bounds { 21 * (length bytes.now / 4) + 32 ≤ length out.old }
    ensures { record { answer = Some result; out = out.new } ≡ text_outcome (over_of done bytes.now) out.old }
{
    let left = words_left(done);
    let end = put_lines(out, bytes, left);
    ListedPart {
        length: put_text(out, end, b"LIMIT\n"),
        done: done + left,
        ended: true,
    }
}

// All lines, and the output's last lines.
fn list_last(done: usize, bytes: &[u8], out: &mut [u8]) -> ListedPart
    requires bytes_bound { done + length bytes.now / 4 ≤ limit }
    requires bytes_in_bounds { 21 * (length bytes.now / 4) + 32 ≤ length out.old }
    ensures { record { answer = Some result; out = out.new } ≡ text_outcome (last_of done bytes.now) out.old }
{
    let words = bytes.len() / 4;
    let tail = put_lines(out, bytes, words);
    let total = put_tail(out, tail, bytes.len() % 4);
    ListedPart {
        length: put_count(out, total, b"TOTAL ", done + words),
        done: done + words,
        ended: true,
    }
}

// All lines of a piece that others follow.
fn list_more(done: usize, bytes: &[u8], out: &mut [u8]) -> ListedPart
    requires bytes_bound { done + length bytes.now / 4 ≤ limit }
    requires bytes_in_bounds { 21 * (length bytes.now / 4) + 32 ≤ length out.old }
    ensures { record { answer = Some result; out = out.new } ≡ text_outcome (more_of done bytes.now) out.old }
{
    let words = bytes.len() / 4;
    ListedPart {
        length: put_lines(out, bytes, words),
        done: done + words,
        ended: false,
    }
}

// Lists one piece of the input, where `done` words were listed before. A piece that is not the last has a multiple of 4 bytes.
pub fn list_part(done: usize, bytes: &[u8], last: bool, out: &mut [u8]) -> Option<ListedPart>
    ensures { record { answer = result; out = out.new } ≡ outcome_of_part done bytes.now last out.old }
{
    let words = bytes.len() / 4;
    if !has_room(out.len(), words) {
        return None;
    }
    if is_over(done, words) {
        return Some(list_over(done, bytes, out));
    }
    if last {
        return Some(list_last(done, bytes, out));
    }
    Some(list_more(done, bytes, out))
}
