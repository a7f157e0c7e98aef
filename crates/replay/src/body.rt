// A body: its flags, its run, and what is said of it.
ghost use Rattle.std.specs.Prelude.{◌≡◌, ◌*◌, length};
ghost use Rattle.isa.specs.Bytes.{words_of};
ghost use Rattle.isa.specs.Run.{outcome_of};
ghost use Rattle.trace.specs.Verdict.{flags as defined_flags, besides, verdict_of};
ghost use Rattle.replay.specs.Body.{Whole, Parts};

use crate::compare::compare;
use crate::program::run_bytes;
use codec::word_at;
use isa::types::Ending;
use trace::types::Verdict;

// The longest file: 32 registers of 2,048 bits.
const LONGEST_FILE: usize = 8192;

// Copies a file, or a part of one. By a loop: of a part `copy_from_slice` asks the C library for memmove, and the archive needs memcpy and memset alone.
pub fn load(image: &mut [u8], file: &[u8])
    requires { length image.old ≡ length file.now }
    ensures { image.new ≡ file.now }
{
    for i in 0..file.len() {
        image[i] = file[i];
    }
}

// What is said where the file agrees.
pub fn flags(left: bool, after: bool) -> Verdict
    ensures { result ≡ defined_flags left after }
{
    if left == after {
        Verdict::Agrees
    } else {
        Verdict::FlagDiffers
    }
}

// The run of a body's words on a copy of its file, beside the flag and the file after it. A run that stopped is not compared.
fn replayed_on(
    image: &mut [u8],
    l: usize,
    before: bool,
    file: &[u8],
    words: &[u8],
    after: bool,
    left: &[u8],
) -> Verdict
    requires image_len { length image.old ≡ 4 * l }
    requires parts { Parts l file.now words.now left.now }
    ensures { result ≡ besides (outcome_of l file.now before (words_of words.now)) after left.now }
{
    image.copy_from_slice(file);
    let ran = run_bytes(l, image, before, words);
    match ran.ending {
        Ending::Done => compare(image, left, flags(ran.qc, after)),
        Ending::Outside => Verdict::Outside(ran.done),
        Ending::Reserved => Verdict::Reserved(ran.done),
        // Not met: the contents are checked.
        Ending::BadLength | Ending::NotPowerOfTwo | Ending::BadSize | Ending::TooLong => {
            Verdict::BadFlag
        }
    }
}

// The same, with an array that holds the longest file for the copy.
fn replayed(l: usize, before: bool, file: &[u8], words: &[u8], after: bool, left: &[u8]) -> Verdict
    requires { Parts l file.now words.now left.now }
    ensures { result ≡ besides (outcome_of l file.now before (words_of words.now)) after left.now }
{
    let mut image = [0u8; LONGEST_FILE];
    let size = l << 2;
    replayed_on(&mut image[..size], l, before, file, words, after, left)
}

// The verdict of a body of length l and w words. `check` has seen that both are allowed, and `case_verdict` cuts out as many bytes as they ask for.
pub fn verdict(l: usize, w: usize, body: &[u8]) -> Verdict
    requires { Whole l w body.now }
    ensures { result ≡ verdict_of l w body.now }
{
    let program = 4 + (l << 2);
    let flag = program + (w << 2);
    let before = word_at(body, 0);
    let after = word_at(body, flag);
    if (before < 2) & (after < 2) {
        return replayed(
            l,
            before == 1,
            &body[4..program],
            &body[program..flag],
            after == 1,
            &body[flag + 4..],
        );
    }
    Verdict::BadFlag
}
