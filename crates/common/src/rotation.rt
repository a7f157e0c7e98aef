// The rotation taken apart, and what each lane of a pair takes by it.
ghost use Rattle.std.specs.Prelude.{◌≡◌};
ghost use Rattle.isa.specs.Stage.{crossed, minus_real, minus_imaginary, partner_of, minus_at};

use isa::types::Rotation;

// The rotation takes the imaginary part of the first source.
pub fn crosses(rot: Rotation) -> bool
    ensures { result ≡ crossed rot }
{
    matches!(rot, Rotation::R90 | Rotation::R270)
}

pub fn minus_real(rot: Rotation) -> bool
    ensures { result ≡ minus_real rot }
{
    matches!(rot, Rotation::R90 | Rotation::R180)
}

pub fn minus_imaginary(rot: Rotation) -> bool
    ensures { result ≡ minus_imaginary rot }
{
    matches!(rot, Rotation::R180 | Rotation::R270)
}

// The other lane of a pair.
pub fn partner(e: usize) -> usize
    ensures { result ≡ partner_of e }
{
    if e % 2 == 0 { e + 1 } else { e - 1 }
}

// Whether lane e subtracts.
pub fn minus_at(real: bool, imaginary: bool, e: usize) -> bool
    ensures { result ≡ minus_at real imaginary e }
{
    if e % 2 == 0 { real } else { imaginary }
}
