// The texts that the letters of a template stand for, and the value that a text gives a letter.
ghost use Rattle.std.specs.Prelude.{◌≡◌, [], ◌∷◌, ℕ, ◌+◌, ◌*◌, ◌/◌, ◌%◌, ◌^◌, ◌<◌, ◌≤◌, length, drop, get_or, IfSome};
ghost use Rattle.grammar.specs.Template.{text_of, count};
ghost use Rattle.grammar.specs.Follow.{common_prefix, guess_text, guess, value_of};
ghost use Rattle.grammar.specs.Grammar.{alphabet, unused, letter_count, slot_of};
ghost use Rattle.grammar.specs.Packed.{unpack, text_bytes, rows, RowOf, Row, packed_texts, numbers_of, texts_of, digit_of, placed, placed_two};

// Letters that there are, the value of one that has none yet, and the texts of numbers.
pub const LETTERS: usize = 26;

pub const UNSET: u8 = 255;

const NUMBERS: u8 = 32;

// Of each letter, a byte each from the lowest on: the place of its first text, two to which power its texts stand apart, and how many it has.
// Those of numbers begin below 32.
static ROWS: [u32; LETTERS] = [
    0x10_0100, 0x10_0101, 0x01_0000, 0x20_0000, 0x08_0200, 0x08_0203, 0x01_0000, 0x10_0000,
    0x08_0000, 0x04_0000, 0x02_0000, 0x08_0000, 0x20_0000, 0x20_0000, 0x01_0000, 0x02_002c,
    0x02_002a, 0x04_0020, 0x02_0024, 0x04_0026, 0x01_0000, 0x01_0000, 0x01_0000, 0x01_0000,
    0x01_0000, 0x01_0000,
];

// A text: its bytes from the lowest on, and its length above them. 0 to 31; 0, 90, 180, 270; 90, 270; B, H, S, D; 4, 8; 2, 4.
static TEXTS: [u32; 46] = [
    0x0100_0030,
    0x0100_0031,
    0x0100_0032,
    0x0100_0033,
    0x0100_0034,
    0x0100_0035,
    0x0100_0036,
    0x0100_0037,
    0x0100_0038,
    0x0100_0039,
    0x0200_3031,
    0x0200_3131,
    0x0200_3231,
    0x0200_3331,
    0x0200_3431,
    0x0200_3531,
    0x0200_3631,
    0x0200_3731,
    0x0200_3831,
    0x0200_3931,
    0x0200_3032,
    0x0200_3132,
    0x0200_3232,
    0x0200_3332,
    0x0200_3432,
    0x0200_3532,
    0x0200_3632,
    0x0200_3732,
    0x0200_3832,
    0x0200_3932,
    0x0200_3033,
    0x0200_3133,
    0x0100_0030,
    0x0200_3039,
    0x0330_3831,
    0x0330_3732,
    0x0200_3039,
    0x0330_3732,
    0x0100_0042,
    0x0100_0048,
    0x0100_0053,
    0x0100_0044,
    0x0100_0034,
    0x0100_0038,
    0x0100_0032,
    0x0100_0034,
];

pub fn row_of(x: usize) -> u32
    requires { x < letter_count }
    ensures { result ≡ get_or rows x 0 }
{
    ROWS[x]
}

fn first_in(row: u32) -> u8
    ensures { result ≡ row % 256 }
{
    (row % 256) as u8
}

fn shift_in(row: u32) -> u32
    ensures { result ≡ row / 256 % 256 }
{
    row / 256 % 256
}

fn count_in(row: u32) -> u8
    ensures { result ≡ row / 65536 % 256 }
{
    (row / 65536 % 256) as u8
}

// A letter's slot. By itself: out of the row it is slower.
pub fn slot_of(x: usize) -> usize
    requires { x < letter_count }
    ensures { (result ≡ slot_of x) × (result < letter_count) }
{
    match x {
        1 => 0,
        5 => 4,
        _ => x,
    }
}

// The text of a value, by the letter's row.
pub fn text_in(row: u32, v: u8) -> u32
    requires { Row row × (v < row / 65536 % 256) }
    ensures { result ≡ get_or packed_texts (row % 256 + v * 2 ^ (row / 256 % 256)) 0 }
{
    TEXTS[first_in(row) as usize + ((v as usize) << shift_in(row))]
}

// The text of a letter's value.
pub fn text_of(x: usize, v: u8) -> u32
    requires { (x < letter_count) × (v < count (get_or alphabet x unused)) }
    ensures { text_bytes result ≡ text_of (get_or alphabet x unused) v }
{
    text_in(row_of(x), v)
}

// Ten times a digit.
fn ten_times(f: u8) -> u8
    requires { f ≤ 10 }
    ensures { result ≡ f * 10 }
{
    let two = f + f;
    let four = two + two;
    four + four + two
}

// The digit at a place of a text.
fn digit_at(s: &[u8], at: usize) -> Option<u8>
    ensures { (result ≡ digit_of (drop at s.now)) × IfSome result (λ d. d ≤ 9) }
{
    if s.len() <= at {
        return None;
    }
    let b = s[at];
    if b < b'0' {
        return None;
    }
    if b'9' < b {
        return None;
    }
    Some(b - b'0')
}

pub fn wide(x: u8) -> u32
    ensures { result ≡ x }
{
    x as u32
}

// The first of a letter's texts that begins with a byte, by its place; 0 where there is none.
fn starting_with(row: u32, b: u8) -> u8
    requires { Row row }
    ensures { (x : ℕ) → RowOf x row → result ≡ guess_text (texts_of (get_or alphabet x unused)) (b ∷ []) }
{
    for v in 0..count_in(row) {
        if text_in(row, v) % 256 == wide(b) {
            return v;
        }
    }
    0
}

// The place of a number among a letter's, which stand a step apart.
fn place_of(row: u32, m: u8) -> Option<u8>
    requires { Row row × (row % 256 < 32) }
    ensures { (x : ℕ) → RowOf x row → result ≡ placed m (numbers_of (get_or alphabet x unused)) }
{
    let first = first_in(row);
    if m < first {
        return None;
    }
    let far = m - first;
    let shift = shift_in(row);
    let v = far >> shift;
    if v << shift != far {
        return None;
    }
    if count_in(row) <= v {
        return None;
    }
    Some(v)
}

// The place of the number of two digits that a digit and a text make.
fn two_digits(row: u32, f: u8, s: &[u8], at: usize) -> Option<u8>
    requires { Row row × (row % 256 < 32) × (f ≤ 9) }
    ensures { (x : ℕ) → RowOf x row → result ≡ placed_two (numbers_of (get_or alphabet x unused)) f (drop at s.now) }
{
    if f == 0 {
        return None;
    }
    let e = digit_at(s, at)?;
    place_of(row, ten_times(f) + e)
}

// The number of a letter that a text has from a place on: of two digits, of one, or one that begins with the digit; else the first.
fn number_at(row: u32, s: &[u8], at: usize) -> u8
    requires { Row row × (row % 256 < 32) × (at < length s.now) }
    ensures { (x : ℕ) → RowOf x row → result ≡ guess (get_or alphabet x unused) (drop at s.now) }
{
    let Some(f) = digit_at(s, at) else {
        return 0;
    };
    if let Some(two) = two_digits(row, f, s, at + 1) {
        return two;
    }
    if let Some(one) = place_of(row, f) {
        return one;
    }
    starting_with(row, s[at])
}

// The value of a letter whose text goes furthest along with a text, from a place on.
fn guess_at(row: u32, s: &[u8], at: usize) -> u8
    requires { Row row }
    ensures { (x : ℕ) → RowOf x row → result ≡ guess (get_or alphabet x unused) (drop at s.now) }
{
    if s.len() <= at {
        return 0;
    }
    if first_in(row) < NUMBERS {
        return number_at(row, s, at);
    }
    starting_with(row, s[at])
}

// How many bytes a text goes along with a packed, from a place on.
pub fn along(packed: u32, s: &[u8], at: usize) -> usize
    requires { at ≤ length s.now }
    ensures { result ≡ common_prefix (text_bytes packed) (drop at s.now) }
{
    let n = (packed / 16777216) as usize;
    let mut rest = packed;
    for i in 0..n {
        if s.len() <= at + i {
            return i;
        }
        if wide(s[at + i]) != rest % 256 {
            return i;
        }
        rest = rest / 256;
    }
    n
}

// The value of a letter: the one that it has, or what the text says.
pub fn value_at(row: u32, v: u8, s: &[u8], at: usize) -> u8
    requires { Row row }
    ensures { (x : ℕ) → RowOf x row → result ≡ value_of (get_or alphabet x unused) v (drop at s.now) }
{
    if v == UNSET {
        return guess_at(row, s, at);
    }
    v
}

pub fn length_of(packed: u32) -> usize
    ensures { result ≡ length (text_bytes packed) }
{
    (packed / 16777216) as usize
}
