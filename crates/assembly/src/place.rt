// Where in a line of the text the instruction stands.
fn is_blank(b: u8) -> bool {
    matches!(b, b' ' | b'\t' | b'\r')
}

// The place past the blanks from a place on.
pub fn skip_blanks(s: &[u8], from: usize) -> usize {
    let Some(rest) = s.get(from..) else {
        return from;
    };
    match rest.iter().position(|b| !is_blank(*b)) {
        Some(blanks) => from + blanks,
        None => s.len(),
    }
}

// The part before the line feed and before a comment.
fn before_comment(line: &[u8]) -> &[u8] {
    let comment = line.windows(2).position(|pair| matches!(pair, b"//"));
    let text = &line[..comment.unwrap_or(line.len())];
    let end = text.iter().position(|b| *b == b'\n');
    &text[..end.unwrap_or(text.len())]
}

// The text from a place on, without blanks around it and without a comment.
pub fn content(line: &[u8], from: usize) -> &[u8] {
    let text = before_comment(line);
    let last = text.iter().rposition(|b| !is_blank(*b));
    let end = last.map_or(0, |place| place + 1);
    text.get(skip_blanks(line, from)..end).unwrap_or(&[])
}
