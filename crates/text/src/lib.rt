// Text in a buffer of its own. What does not fit is dropped; a program's buffers have room for the longest that it says.
#![tactic(auto)]

ghost use Rattle.std.specs.Prelude.{◌≡◌, ◌≤◌, ◌++◌, ◌∷◌, [], List, ℕ, length, take, IsOk};

use std::fmt;
use std::marker::Model;

// A text of at most N bytes.
#[derive(Drop)]
pub struct Text<const N: usize> {
    bytes: [u8; N],
    size: usize,
}

// Clauses see the bytes that it has.
impl<const N: usize> Model for Text<N> {
    ghost Value = { List ℕ };

    ghost view = { λ t. take t.size t.bytes };

    ghost invariant = { λ t. t.size ≤ N };
}

impl<const N: usize> Text<N> {
    pub fn new() -> Self
        ensures { result ≡ [] }
    {
        Text {
            bytes: [0; N],
            size: 0,
        }
    }

    pub fn len(&self) -> usize
        ensures { result ≡ length self.now }
    {
        self.as_bytes().len()
    }

    pub fn as_bytes(&self) -> &[u8]
        ensures { result.now ≡ self.now }
    {
        &self.bytes[..self.size]
    }

    #[inline]
    pub fn push(&mut self, b: u8)
        ensures { self.new ≡ take N (self.old ++ b ∷ []) }
    {
        if self.size < N {
            self.bytes[self.size] = b;
            self.size += 1;
        }
    }

    pub fn push_bytes(&mut self, bytes: &[u8])
        ensures { self.new ≡ take N (self.old ++ bytes.now) }
    {
        let n = (N - self.size).min(bytes.len());
        let end = self.size + n;
        let all = &mut self.bytes[..];
        all[self.size..end].copy_from_slice(&bytes[..n]);
        self.size = end;
    }

    // Takes over what `write` puts into the room that is left: it answers how many bytes.
    pub fn push_with<F: FnOnce(&mut [u8]) -> usize>(&mut self, write: F)
        requires { F.IsAlwaysCallable write }
        ensures { take (length self.old) self.new ≡ self.old }
    {
        let all = &mut self.bytes[..];
        let n = write(&mut all[self.size..]);
        self.size += n.min(N - self.size);
    }

    // Drops what stands behind the first n bytes.
    pub fn truncate(&mut self, n: usize)
        ensures { self.new ≡ take n self.old }
    {
        self.size = self.size.min(n);
    }
}

impl<const N: usize> fmt::Write for Text<N> {
    ghost write_str_gives = { λ before s after. after ≡ take N (before ++ s) };

    fn write_str(&mut self, s: &str) -> fmt::Result
        ensures ok { IsOk result }
        ensures written { self.new ≡ take N (self.old ++ s.now) }
    {
        self.push_bytes(s.as_bytes());
        Ok(())
    }
}
