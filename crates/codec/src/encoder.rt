// The word that an operation is, or the first refusal that applies.
ghost use Rattle.std.specs.Prelude.{◌≡◌, ℕ, ◌<◌, ◌^◌, Ok};
ghost use Rattle.isa.specs.Table.{i2, i1, ZmH, ZmS, add_row, mul_row, indexed_row, scalar_row, vector_row, sqdmulh_two, sqdmulh_four};
ghost use Rattle.isa.specs.Check.{unless};
ghost use Rattle.isa.specs.Encode.{answer, size_bits, rotation_bits, add_rotation, add_rotation_bits, half_or_single, by_size, add_checks, mul_checks, indexed_checks, element_checks, group_checks, encode_of};
ghost use Rattle.isa.specs.Register.{by_group};
ghost use Rattle.codec.specs.Base.{form_base};

use isa::types::{
    Add, ByElement, Form, Group, Mul, MulGroup, MulIndexed, Op, Rotation, Size, WriteRefusal,
};

pub fn size_bits(z: Size) -> u32
    ensures { (result ≡ size_bits z) × (result < 4) }
{
    z as u32
}

pub fn rotation_bits(rot: Rotation) -> u32
    ensures { (result ≡ rotation_bits rot) × (result < 4) }
{
    rot as u32
}

// CADD and SQCADD have 90 for 0 and 270 for 1.
fn add_rotation(rot: Rotation) -> bool
    ensures { result ≡ add_rotation rot }
{
    matches!(rot, Rotation::R90 | Rotation::R270)
}

pub fn add_rotation_bits(rot: Rotation) -> u32
    ensures { (result ≡ add_rotation_bits rot) × (result < 2) }
{
    match rot {
        Rotation::R0 => 0,
        Rotation::R90 => 0,
        Rotation::R180 => 1,
        Rotation::R270 => 1,
    }
}

fn half_or_single(z: Size) -> bool
    ensures { result ≡ half_or_single z }
{
    matches!(z, Size::H | Size::S)
}

// One of the two, so below whatever both are below.
pub fn by_size(h: u32, s: u32, z: Size) -> u32
    ensures { (result ≡ by_size h s z) × ((n : ℕ) → h < n → s < n → result < n) }
{
    match z {
        Size::B => h,
        Size::H => h,
        Size::S => s,
        Size::D => s,
    }
}

// The same for a group.
pub fn by_group(two: u32, four: u32, g: Group) -> u32
    ensures { (result ≡ by_group two four g) × ((n : ℕ) → two < n → four < n → result < n) }
{
    match g {
        Group::Two => two,
        Group::Four => four,
    }
}

// The base of a by-element form, with Q.
fn form_base(scalar: u32, vector: u32, f: Form) -> u32
    requires { (scalar < 2 ^ 31) × (vector < 2 ^ 30) }
    ensures { (result ≡ form_base scalar vector f) × (result < 2 ^ 31) }
{
    match f {
        Form::Scalar => scalar,
        Form::Vector64 => vector,
        Form::Vector128 => vector + 0x4000_0000,
    }
}

fn check(holds: bool, refusal: WriteRefusal) -> Result<(), WriteRefusal>
    ensures { result ≡ unless holds refusal (Ok tt) }
{
    if holds { Ok(()) } else { Err(refusal) }
}

// ---- the families: the checks in the order of the refusals, and then the word, in which each field has its place

#[tactic(auto, unfolding(isa::specs::Encode::answer))]
fn encode_add(base: u32, a: Add) -> Result<u32, WriteRefusal>
    requires { base < 2 ^ 31 }
    ensures { result ≡ answer (add_checks (add_row base) a) }
{
    check(add_rotation(a.rot), WriteRefusal::NoRotation)?;
    check((a.zm <= 31) & (a.zdn <= 31), WriteRefusal::RegisterLimit)?;
    let size = size_bits(a.size) << 22;
    let rot = add_rotation_bits(a.rot) << 10;
    Ok(base + size + rot + (a.zm << 5) + a.zdn)
}

#[tactic(auto, unfolding(isa::specs::Encode::answer))]
fn encode_mul(base: u32, a: Mul) -> Result<u32, WriteRefusal>
    requires { base < 2 ^ 31 }
    ensures { result ≡ answer (mul_checks (mul_row base) a) }
{
    let within = (a.zm <= 31) & ((a.zn <= 31) & (a.zda <= 31));
    check(within, WriteRefusal::RegisterLimit)?;
    let size = size_bits(a.size) << 22;
    let rot = rotation_bits(a.rot) << 10;
    Ok(base + size + (a.zm << 16) + rot + (a.zn << 5) + a.zda)
}

// The index stands above Zm, which has three bits at H and four at S.
#[tactic(auto, unfolding(isa::specs::Encode::answer))]
fn encode_indexed(base_h: u32, base_s: u32, a: MulIndexed) -> Result<u32, WriteRefusal>
    requires { (base_h < 0x6000_0000) × (base_s < 0x6000_0000) }
    ensures { result ≡ answer (indexed_checks (indexed_row i2 ZmH base_h) (indexed_row i1 ZmS base_s) a) }
{
    let size = a.size;
    let index = a.index;
    check(half_or_single(size), WriteRefusal::NoSize)?;
    let within = (a.zm <= by_size(7, 15, size)) & ((a.zn <= 31) & (a.zda <= 31));
    check(within, WriteRefusal::RegisterLimit)?;
    check(index <= by_size(3, 1, size), WriteRefusal::IndexLimit)?;
    let base = by_size(base_h + (index << 19), base_s + (index << 20), size);
    let rot = rotation_bits(a.rot) << 10;
    Ok(base + (a.zm << 16) + rot + (a.zn << 5) + a.zda)
}

// H: the index is H:L:M and the register Rm. S: the index is H:L and the register M:Rm.
#[tactic(auto, unfolding(isa::specs::Encode::answer))]
fn encode_element(scalar: u32, vector: u32, a: ByElement) -> Result<u32, WriteRefusal>
    requires { (scalar < 2 ^ 31) × (vector < 2 ^ 30) }
    ensures { result ≡ answer (element_checks (scalar_row scalar) (vector_row vector) a) }
{
    let size = a.size;
    let index = a.index;
    check(half_or_single(size), WriteRefusal::NoSize)?;
    let within = (a.rm <= by_size(15, 31, size)) & ((a.rn <= 31) & (a.rd <= 31));
    check(within, WriteRefusal::RegisterLimit)?;
    check(index <= by_size(7, 3, size), WriteRefusal::IndexLimit)?;
    let base = form_base(scalar, vector, a.form);
    let bits_h = (1 << 22) + ((index >> 1) % 2 << 21) + (index % 2 << 20) + (index >> 2 << 11);
    let bits_s = (2 << 22) + (index % 2 << 21) + (index >> 1 << 11);
    Ok(base + by_size(bits_h, bits_s, size) + (a.rm << 16) + (a.rn << 5) + a.rd)
}

// A group's first register is the multiple that its place holds.
#[tactic(auto, unfolding(isa::specs::Encode::answer))]
fn encode_group(a: MulGroup) -> Result<u32, WriteRefusal>
    ensures { result ≡ answer (group_checks sqdmulh_two sqdmulh_four a) }
{
    let group = a.group;
    check((a.zm <= 15) & (a.zdn <= 31), WriteRefusal::RegisterLimit)?;
    check(
        by_group(a.zdn % 2, a.zdn % 4, group) == 0,
        WriteRefusal::GroupStart,
    )?;
    let base = by_group(0xC120_A400, 0xC120_AC00, group);
    Ok(base + (size_bits(a.size) << 22) + (a.zm << 16) + a.zdn)
}

pub fn encode(op: Op) -> Result<u32, WriteRefusal>
    ensures { result ≡ encode_of op }
{
    match op {
        Op::Cadd(a) => encode_add(0x4500_D800, a),
        Op::Sqcadd(a) => encode_add(0x4501_D800, a),
        Op::Cmla(a) => encode_mul(0x4400_2000, a),
        Op::Sqrdcmlah(a) => encode_mul(0x4400_3000, a),
        Op::CmlaIndexed(a) => encode_indexed(0x44A0_6000, 0x44E0_6000, a),
        Op::SqrdcmlahIndexed(a) => encode_indexed(0x44A0_7000, 0x44E0_7000, a),
        Op::Sqrdmlah(a) => encode_element(0x7F00_D000, 0x2F00_D000, a),
        Op::Sqrdmlsh(a) => encode_element(0x7F00_F000, 0x2F00_F000, a),
        Op::Sqdmulh(a) => encode_group(a),
    }
}
