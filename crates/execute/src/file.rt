// The registers of a text.
// The longest vector that a text may give, in bits.
pub const MOST_BITS: usize = 4096;

// The bytes of 32 such registers.
const BYTES: usize = 16384;

// A register file at a length of `bits`.
#[derive(Clone, Copy)]
pub struct File {
    bits: usize,
    bytes: [u8; BYTES],
}

impl File {
    // All bytes are zero.
    pub fn new(bits: usize) -> Self {
        File {
            bits,
            bytes: [0; BYTES],
        }
    }

    pub fn bits(&self) -> usize {
        self.bits
    }

    // All registers, which is what a run is lent.
    pub fn lent(&mut self) -> &mut [u8] {
        let end = (self.bits << 2).min(BYTES);
        &mut self.bytes[..end]
    }

    // Below 8 bits a register has no byte.
    fn width(&self) -> usize {
        self.bits / 8
    }

    // Register n.
    pub fn register(&self, n: usize) -> &[u8] {
        let width = self.width();
        match self.bytes.chunks(width.max(1)).nth(n) {
            Some(register) => &register[..width.min(register.len())],
            None => &[],
        }
    }

    pub fn register_mut(&mut self, n: usize) -> &mut [u8] {
        let width = self.width();
        match self.bytes.chunks_mut(width.max(1)).nth(n) {
            Some(register) => {
                let end = width.min(register.len());
                &mut register[..end]
            }
            None => &mut [],
        }
    }
}
