// Sixteen bytes of a slice, read into an array and stored from one, and the segments above the first of a register.
ghost use Rattle.std.specs.Prelude.{◌+◌, ◌*◌, ◌/◌, ◌≤◌, length};
ghost use Rattle.regfile.specs.Bytes.{Loaded, Stored, Cleared};
ghost use Rattle.regfile.specs.Sweep.{Held};

// The sixteen bytes of s from `at` on. Callers stay within a register of a checked file.
pub fn read16(s: &[u8], at: usize) -> [u8; 16]
    requires { at + 16 ≤ length s.now }
    ensures { Loaded s.now at 16 result }
{
    let mut v = [0u8; 16];
    for i in 0..16 {
        v[i] = s[at + i];
    }
    v
}

// Stores v into s from `at` on. The same callers.
pub fn write16(s: &mut [u8], at: usize, v: [u8; 16])
    requires { at + 16 ≤ length s.old }
    ensures { Stored s.old at 16 v s.new }
{
    for i in 0..16 {
        s[at + i] = v[i];
    }
}

// Zeros above the first 16 bytes of the register at d: at 128 bits there are none.
pub fn clear_above(l: usize, file: &mut [u8], d: usize)
    requires held { Held l file.old }
    requires l_bound { d + l / 8 ≤ 4 * l }
    ensures { Cleared file.old (d + 16) (d + l / 8) file.new }
{
    for k in 1..l >> 7 {
        write16(file, d + (k << 4), [0u8; 16]);
    }
}
