// A line as it is written: the bytes so far, at an array's start.
ghost use Rattle.std.specs.Prelude.{◌≡◌, [], ◌∷◌, ◌++◌, ◌+◌, ◌/◌, ◌<◌, ◌≤◌, length, take};
ghost use Rattle.grammar.specs.Grammar.{line_max};
ghost use Rattle.grammar.specs.Packed.{text_bytes};

// The longest line, and two bytes more that a text of one byte may be stored with.
const ROOM: usize = 50;

// No `impl Model`: the kit copies a value of such a type only where its view gives every byte of the array back.
#[derive(Clone, Copy)]
pub struct Text {
    pub bytes: [u8; ROOM],
    pub size: usize,
    ghost within: { size ≤ line_max },
}

impl Text {
    pub(crate) fn new() -> Self
        ensures { take result.size result.bytes ≡ [] }
    {
        Text {
            bytes: [0; ROOM],
            size: 0,
        }
    }

    pub(crate) fn push(&mut self, c: u8)
        requires { length (take self.old.size self.old.bytes) < line_max }
        ensures { take self.new.size self.new.bytes ≡ take self.old.size self.old.bytes ++ c ∷ [] }
    {
        self.bytes[self.size] = c;
        self.size += 1;
    }

    // All three bytes that a text may have are stored; those past its end are overwritten.
    pub(crate) fn push_text(&mut self, packed: u32)
        requires { (packed / 16777216 ≤ 3) × (length (take self.old.size self.old.bytes) + length (text_bytes packed) ≤ line_max) }
        ensures { take self.new.size self.new.bytes ≡ take self.old.size self.old.bytes ++ text_bytes packed }
    {
        self.bytes[self.size] = (packed % 256) as u8;
        self.bytes[self.size + 1] = (packed / 256 % 256) as u8;
        self.bytes[self.size + 2] = (packed / 256 / 256 % 256) as u8;
        self.size += (packed / 16777216) as usize;
    }

    pub(crate) fn as_slice(&self) -> &[u8]
        ensures { result.now ≡ take self.now.size self.now.bytes }
    {
        &self.bytes[..self.size]
    }
}
