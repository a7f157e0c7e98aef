// How far a text follows a template, and the values that it gives the slots.
ghost use Rattle.std.specs.Prelude.{◌≡◌, List, map, ℕ, ◌<◌, ◌≤◌, length};
ghost use Rattle.grammar.specs.Template.{Item};
ghost use Rattle.grammar.specs.Follow.{follow};
ghost use Rattle.grammar.specs.Search.{blank};
ghost use Rattle.grammar.specs.Grammar.{variables, item_of, letter_count};
ghost use Rattle.line_reader.specs.Steps.{Held, taken, Steps, Follows};

use grammar::types::NotLine;
use letters::texts::{LETTERS, UNSET, along, length_of, row_of, slot_of, text_in, value_at};

// One byte: the place behind it, or how far the text goes along.
fn literal(c: u8, s: &[u8], at: usize) -> Result<usize, NotLine>
    requires { at ≤ length s.now }
    ensures { (vs : List ℕ) → Held vs → Steps (Item.byte c) vs s.now at (taken result vs) }
{
    if at < s.len() && s[at] == c {
        Ok(at + 1)
    } else {
        Err(NotLine { reach: at })
    }
}

fn variable(x: usize, values: &mut [u8; LETTERS], s: &[u8], at: usize) -> Result<usize, NotLine>
    requires { (x < letter_count) × (at ≤ length s.now) × Held values.old }
    ensures { Steps (Item.var x) values.old s.now at (taken result values.new) }
{
    let slot = slot_of(x);
    let row = row_of(x);
    let v = value_at(row, values[slot], s, at);
    values[slot] = v;
    let packed = text_in(row, v);
    let n = along(packed, s, at);
    if n == length_of(packed) {
        Ok(at + n)
    } else {
        Err(NotLine { reach: at + n })
    }
}

fn one_item(c: u8, values: &mut [u8; LETTERS], s: &[u8], at: usize) -> Result<usize, NotLine>
    requires { (at ≤ length s.now) × Held values.old }
    ensures { Steps (item_of c) values.old s.now at (taken result values.new) }
{
    match c {
        b'a'..=b'z' => variable((c - b'a') as usize, values, s, at),
        _ => literal(c, s, at),
    }
}

// The values, where the text is the template's whole.
pub fn follow(template: &[u8], s: &[u8]) -> Result<[u8; LETTERS], NotLine>
    ensures { Follows result (follow variables (map item_of template.now) blank s.now) }
{
    let mut values = [UNSET; LETTERS];
    let mut at = 0;
    for &c in template {
        at = one_item(c, &mut values, s, at)?;
    }
    if at == s.len() {
        Ok(values)
    } else {
        Err(NotLine { reach: at })
    }
}
