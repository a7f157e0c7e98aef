// Where the registers of a file stand.
ghost use Rattle.std.specs.Prelude.{◌≡◌, ◌*◌, ◌/◌, ◌<◌, ◌≤◌};
ghost use Rattle.regfile.specs.Place.{Starts, Numbers};

use crate::part::starts;

// The places in the file of an operation's destination, of its first source and of its second.
#[derive(Clone, Copy)]
pub struct Operands {
    pub dest: usize,
    pub first: usize,
    pub second: usize,
}

// A vector length, and where each of the 32 registers starts at it.
#[derive(Drop)]
pub struct Layout {
    pub l: usize,
    starts: [usize; 32],
    ghost table: { Starts (l / 8) starts },
}

impl Layout {
    // Callers have checked the length.
    pub fn new(l: usize) -> Layout
        requires { l ≤ 2048 }
        ensures { result.l ≡ l }
    {
        Layout {
            l,
            starts: starts(l >> 3),
        }
    }

    // Where register r starts.
    fn start(&self, r: u32) -> usize
        requires { r < 32 }
        ensures { result ≡ r * (self.now.l / 8) }
    {
        self.starts[r as usize]
    }

    // Where the registers of an operation start, by their numbers.
    pub fn operands(&self, dest: u32, first: u32, second: u32) -> Operands
        requires { Numbers dest first second }
        ensures dest { result.dest ≡ dest * (self.now.l / 8) }
        ensures first { result.first ≡ first * (self.now.l / 8) }
        ensures second { result.second ≡ second * (self.now.l / 8) }
    {
        Operands {
            dest: self.start(dest),
            first: self.start(first),
            second: self.start(second),
        }
    }
}
