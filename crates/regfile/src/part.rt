// Where a register stands, and its part of the file.
ghost use Rattle.std.specs.Prelude.{◌≡◌, ◌*◌, ◌<◌, ◌≤◌};
ghost use Rattle.isa.specs.File.{register_of};
ghost use Rattle.regfile.specs.Place.{Half, Short, Starts, Cut};

use crate::check::check_register;
use std::ops::Range;

// n * w from n / 2 * w. Called by `offset`, with the leading bits of its n.
fn appended(half: usize, w: usize, n: usize) -> usize
    requires { Half half w n }
    ensures { result ≡ n * w }
{
    let twice = half + half;
    if n % 2 == 0 { twice } else { twice + w }
}

// n * w, by the five bits of n: where register n starts among registers of w bytes. Callers have a checked length and a checked number.
pub fn offset(w: usize, n: usize) -> usize
    requires { Short w n }
    ensures { result ≡ n * w }
{
    let a = appended(0, w, n >> 4);
    let b = appended(a, w, n >> 3);
    let c = appended(b, w, n >> 2);
    let d = appended(c, w, n >> 1);
    appended(d, w, n)
}

// Where each of the 32 registers of w bytes starts. Callers have a checked length.
pub fn starts(w: usize) -> [usize; 32]
    requires { w ≤ 256 }
    ensures { Starts w result }
{
    let mut starts = [0; 32];
    let mut at = 0;
    for start in &mut starts {
        *start = at;
        at += w;
    }
    starts
}

// From the start of register n to its end, in a file of `size` bytes; from 0 to 0 on a refusal.
fn part_of(l: usize, size: usize, n: usize) -> Range<usize>
    ensures { Cut l size n result.start result.end }
{
    if check_register(l, size, n).is_err() {
        return 0..0;
    }
    let w = l >> 3;
    let start = offset(w, n);
    start..start + w
}

// The part of the file for register n, to read and to fill; an empty part on a refusal.
pub fn register(l: usize, file: &mut [u8], n: usize) -> &mut [u8]
    ensures { result.now ≡ register_of l file.old n }
{
    let part = part_of(l, file.len(), n);
    &mut file[part]
}

// The same to read only.
pub fn register_read(l: usize, file: &[u8], n: usize) -> &[u8]
    ensures { result.now ≡ register_of l file.now n }
{
    let part = part_of(l, file.len(), n);
    &file[part]
}
