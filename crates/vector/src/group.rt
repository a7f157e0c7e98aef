// SQDMULH on the registers of a group. All segments at one place are worked out before any is stored, since the second source may be one of the group.
ghost use Rattle.std.specs.Prelude.{length};
ghost use Rattle.integer.specs.Lane.{doubled_high};
ghost use Rattle.isa.specs.Meaning.{lane_wise};
ghost use Rattle.isa.specs.Register.{bits};
ghost use Rattle.regfile.specs.Group.{GroupLying, GroupSwept};
ghost use Rattle.vector.specs.Spread.{Spread, Worked, Filed};

use kernel::lane::Lane;
use kernel::vectors::sqdmulh;
use regfile::segment::{read16, write16};

// What becomes of COUNT segments, from each to the next w bytes.
fn worked<L: Lane<K>, const K: usize, const COUNT: usize>(
    w: usize,
    file: &[u8],
    at: usize,
    z: [u8; 16],
) -> [[u8; 16]; COUNT]
    requires { Spread (length file.now) at w COUNT }
    ensures { Worked (lane_wise L.size (doubled_high (bits L.size))) file.now at w COUNT z result }
{
    let mut new = [[0u8; 16]; COUNT];
    let mut place = at;
    for r in 0..COUNT {
        new[r] = sqdmulh::<L, K>(read16(file, place), z);
        place += w;
    }
    new
}

// Stores them.
fn file_all<const COUNT: usize>(w: usize, file: &mut [u8], at: usize, new: [[u8; 16]; COUNT])
    requires { Spread (length file.old) at w COUNT }
    ensures { Filed file.old at w COUNT new.entry file.new }
{
    let mut place = at;
    for r in 0..COUNT {
        write16(file, place, new[r]);
        place += w;
    }
}

// SQDMULH on COUNT registers.
pub fn group<L: Lane<K>, const K: usize, const COUNT: usize>(
    l: usize,
    file: &mut [u8],
    d: usize,
    m: usize,
)
    requires { GroupLying l file.old COUNT d m }
    ensures { GroupSwept l COUNT (lane_wise L.size (doubled_high (bits L.size))) file.old d m file.new }
{
    let w = l >> 3;
    for k in 0..l >> 7 {
        let q = k << 4;
        let z = read16(file, m + q);
        let new = worked::<L, K, COUNT>(w, file, d + q, z);
        file_all::<COUNT>(w, file, d + q, new);
    }
}
