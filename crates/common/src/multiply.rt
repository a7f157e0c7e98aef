// Products of numbers without a sign. The library multiplies in `multiply` only, two numbers of 16 bits into 32; every wider product is put
// together from that one.
ghost use Rattle.std.specs.Prelude.{◌≡◌, ◌*◌, ◌^◌, ◌<◌, ◌≤◌};

// The product of two numbers of 16 bits: the one multiplication.
pub fn multiply(a: u16, b: u16) -> u32
    ensures { result ≡ a * b }
{
    (a as u32) * (b as u32)
}

// A digit times a number of two digits. It is a function of its own: only then does the compiler know the four products of `half_product` as one.
fn row(a: u64, b: u64) -> u64
    requires { (a < 2 ^ 16) × (b < 2 ^ 32) }
    ensures { (result ≡ a * b) × (result ≤ 65535 * 4294967295) }
{
    let low = multiply(a as u16, (b % 65536) as u16);
    let high = multiply(a as u16, (b / 65536) as u16);
    (low as u64) + ((high as u64) << 16)
}

// The product of two numbers of 32 bits. It leaves room for two carries.
pub fn half_product(a: u64, b: u64) -> u64
    requires { (a < 2 ^ 32) × (b < 2 ^ 32) }
    ensures { (result ≡ a * b) × (result ≤ 4294967295 * 4294967295) }
{
    row(a % 65536, b) + (row(a / 65536, b) << 16)
}
