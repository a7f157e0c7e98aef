// Eight numbers by name.
#[derive(Clone, Copy, Debug, PartialEq, Eq)]
pub struct Numbers {
    pub family: u32,
    pub size: u32,
    pub form: u32,
    pub turns: u32,
    pub destination: u32,
    pub first: u32,
    pub second: u32,
    pub index: u32,
}
