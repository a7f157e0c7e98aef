// The checks before a file is used. What is answered is the first refusal that applies: 1, 11, 2, then 6.
ghost use Rattle.std.specs.Prelude.{◌≡◌};
ghost use Rattle.isa.specs.File.{legal, multiple, check_of, register_check};
ghost use Rattle.isa.specs.Number.{asked_number};

use isa::types::{FileRefusal, RegisterRefusal};

// Whether l is a legal vector length.
pub fn is_legal(l: usize) -> bool
    ensures { result ≡ legal l }
{
    (l == 128) | ((l == 256) | ((l == 512) | ((l == 1024) | (l == 2048))))
}

// Whether l is a multiple of 128 from 128 to 2,048.
fn is_multiple(l: usize) -> bool
    ensures { result ≡ multiple l }
{
    (l % 128 == 0) & ((128 <= l) & (l <= 2048))
}

// Whether l is a legal vector length and `size` the number of bytes of its file. Both are tested together first: tested one in the other, they cost
// the run's loop an instruction a word.
pub fn check_size(l: usize, size: usize) -> Result<(), FileRefusal>
    ensures { result ≡ check_of l size }
{
    let legal = is_legal(l);
    if legal & (size == l << 2) {
        return Ok(());
    }
    if legal {
        return Err(FileRefusal::BadSize);
    }
    if is_multiple(l) {
        return Err(FileRefusal::NotPowerOfTwo);
    }
    Err(FileRefusal::BadLength)
}

// The same, and then whether there is a register n.
#[tactic(auto, unfolding(isa::specs::File::register_check))]
pub fn check_register(l: usize, size: usize, n: usize) -> Result<(), RegisterRefusal>
    ensures { result ≡ register_check l size n }
{
    check_size(l, size)?;
    if n < 32 {
        Ok(())
    } else {
        Err(RegisterRefusal::NoRegister)
    }
}

// The number of document 01, or request A5's.
#[tactic(auto, unfolding(isa::specs::Number::asked_number))]
pub fn asked_number(asked: Result<(), RegisterRefusal>) -> u8
    ensures { result ≡ asked_number asked }
{
    match asked {
        Ok(()) => 0,
        Err(RegisterRefusal::File(refusal)) => refusal as u8,
        Err(RegisterRefusal::NoRegister) => 6,
    }
}
