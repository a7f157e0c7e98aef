// The first byte in which two files of one size, or parts of them, differ.
ghost use Rattle.std.specs.Prelude.{◌≡◌, ◌+◌, ◌≤◌, length, true};
ghost use Rattle.trace.specs.Verdict.{compared};
ghost use Rattle.replay.specs.Body.{Alike, AlikeFrom, Differing};

use trace::types::Verdict;

// Bytes compared at once.
const BLOCK: usize = 512;

// Whether the block from a place on is the same in both. No branch within, so that the compiler compares sixteen bytes at once.
fn same_block(a: &[u8], b: &[u8], at: usize) -> bool
    requires { (at + 512 ≤ length a.now) × (at + 512 ≤ length b.now) }
    ensures { result ≡ true → AlikeFrom a.now b.now at 512 }
{
    let mut same = true;
    for i in 0..BLOCK {
        same = same & (a[at + i] == b[at + i]);
    }
    same
}

// A place before which nothing differs: the start of the first block that does, or of what is shorter than a block.
fn alike(a: &[u8], b: &[u8]) -> usize
    requires { length b.now ≡ length a.now }
    ensures { (result ≤ length a.now) × Alike a.now b.now result }
{
    let whole = a.len() - a.len() % BLOCK;
    for at in (0..whole).step_by(BLOCK) {
        if !same_block(a, b, at) {
            return at;
        }
    }
    whole
}

// The first place from `from` on that differs, or the end.
fn differing(a: &[u8], b: &[u8], from: usize) -> usize
    requires b_len { length b.now ≡ length a.now }
    requires from_in_bounds { (from ≤ length a.now) × Alike a.now b.now from }
    ensures { Differing a.now b.now result }
{
    for i in from..a.len() {
        if a[i] != b[i] {
            return i;
        }
    }
    a.len()
}

// The first place in which two parts of files of one size differ, or the end.
pub fn first_difference(a: &[u8], b: &[u8]) -> usize
    requires { length b.now ≡ length a.now }
    ensures { Differing a.now b.now result }
{
    differing(a, b, alike(a, b))
}

// What is said of two files: the first byte that differs, or `agreed`.
pub fn compare(file: &[u8], left: &[u8], agreed: Verdict) -> Verdict
    requires { length left.now ≡ length file.now }
    ensures { result ≡ compared 0 file.now left.now agreed }
{
    let i = first_difference(file, left);
    if i < file.len() {
        return Verdict::FileDiffers(i, file[i]);
    }
    agreed
}
