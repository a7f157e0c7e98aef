// Decoding and writing of the instruction words of the nine families, and words from bytes.
#![tactic(auto)]

mod bytes;
mod decoder;
mod encoder;

pub use bytes::word_at;
pub use decoder::{add_rotation_of, decode, rotation_of, size_of};
pub use encoder::{add_rotation_bits, by_group, by_size, encode, rotation_bits, size_bits};
