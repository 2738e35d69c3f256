// A line of a shelf's text: its words, and where they stand.
use console::parts;
use text::values;

// Where a word begins, and how many characters it has: none at the end of the line, where a word may be missing.
#[derive(Clone, Copy)]
pub struct Span {
    pub from: usize,
    pub size: usize,
}

fn is_space(character: u8) -> bool {
    matches!(character, b' ' | b'\t' | b'\r')
}

// The next word from a place on.
pub fn next(line: &[u8], at: usize) -> Span {
    let start = at.min(line.len());
    let rest = &line[start..];
    let spaces = rest
        .iter()
        .position(|c| !is_space(*c))
        .unwrap_or(rest.len());
    let word = &rest[spaces..];
    let size = word.iter().position(|c| is_space(*c)).unwrap_or(word.len());
    Span {
        from: start + spaces,
        size,
    }
}

// The place behind a word.
pub fn behind(span: Span) -> usize {
    span.from.saturating_add(span.size)
}

// Word k, counted from 0.
pub fn nth(line: &[u8], k: usize) -> Span {
    let mut span = next(line, 0);
    for _ in 0..k {
        span = next(line, behind(span));
    }
    span
}

// The characters of a word.
pub fn word(line: &[u8], span: Span) -> &[u8] {
    parts::stretch(line, span.from, span.size)
}

pub fn is(line: &[u8], k: usize, what: &[u8]) -> bool {
    word(line, nth(line, k)) == what
}

pub fn is_blank(line: &[u8]) -> bool {
    next(line, 0).size == 0
}

// The number that a word holds.
pub fn number(line: &[u8], span: Span) -> Option<usize> {
    values::number(word(line, span)).ok()
}
