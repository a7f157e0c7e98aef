// The name of the trace's file. It comes on a descriptor of its own. Only the kit's `io` reads one by its number.
ghost use Rattle.std.specs.Prelude.{◌≤◌, length};

use text::Text;

const NAME_FILENO: i32 = 3;

// The longest name.
const NAME: usize = 4096;

// A line without its end; empty where the descriptor is not open.
#[derive(Clone, Copy)]
pub struct Name {
    line: [u8; NAME],
    size: usize,
}

// What stands for a byte of the name: a tab or a line feed in it would be taken for the end of a column.
fn shown(b: u8) -> u8 {
    if b.is_ascii_control() { b'?' } else { b }
}

impl Name {
    pub fn read() -> Self {
        let mut line = io::buffer();
        let size = io::read_full(NAME_FILENO, &mut line);
        Name { line, size }
    }

    fn as_bytes(&self) -> &[u8] {
        let line = &self.line[..self.size.min(NAME)];
        line.strip_suffix(b"\n").unwrap_or(line)
    }

    // Whether it stands for a trace that comes in pieces.
    pub fn is_dash(&self) -> bool {
        self.as_bytes() == b"-".as_slice()
    }

    // The name and a tab.
    pub fn column<const N: usize>(&self) -> Text<N> {
        let mut column = Text::new();
        for b in self.as_bytes() {
            column.push(shown(*b));
        }
        column.push(b'\t');
        column
    }
}
