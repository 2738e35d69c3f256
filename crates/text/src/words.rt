// Words, which one space each separates.
ghost use Rattle.std.specs.Prelude.{◌<◌, ◌≤◌, IfSome, length};
ghost use Rattle.std.specs.Iterator.{at_most};

use crate::octets::{find, find_near};

// The words of a line, each with the space before it: the first of a line has none, so it is none of them. Words of a form are NEAR:
// they are short, and looked for octet by octet.
#[derive(Drop)]
pub struct Words<'a, const NEAR: bool> {
    // What is left begins with the space before the next word.
    rest: &'a [u8],
}

impl<'a, const NEAR: bool> Words<'a, NEAR> {
    pub fn of(rest: &'a [u8]) -> Self {
        Self { rest }
    }

    pub fn behind_first(line: &'a [u8]) -> Self {
        Self {
            rest: &line[find_near(line, 0, b' ')..],
        }
    }

    pub fn rest(&self) -> &'a [u8] {
        self.rest
    }
}

impl<'a, const NEAR: bool> Iterator for Words<'a, NEAR> {
    type Item = &'a [u8];

    ghost remaining = { λ s. at_most (length s.rest.now) };

    fn next(&mut self) -> Option<&'a [u8]> {
        let (_, text) = self.rest.split_first()?;
        let end = if NEAR {
            find_near(text, 0, b' ')
        } else {
            find(text, 0, b' ')
        };
        self.rest = &text[end..];
        Some(&text[..end])
    }
}

// How many words there are, or none where one of them is empty.
pub fn count(text: &[u8]) -> Option<usize> {
    if before(text, b' ').is_empty() {
        return None;
    }
    let mut n = 1usize;
    for word in Words::<false>::behind_first(text) {
        if word.is_empty() {
            return None;
        }
        n = n.saturating_add(1);
    }
    Some(n)
}

// What stands before the first such octet and what behind it, where there is one.
pub fn split_once(text: &[u8], mark: u8) -> Option<(&[u8], &[u8])>
    ensures { IfSome result (λ parts. length parts.1.now < length text.now) }
{
    let (before, rest) = text.split_at(find(text, 0, mark));
    let (_, behind) = rest.split_first()?;
    Some((before, behind))
}

// What stands before the first such octet, or all where there is none.
pub fn before(text: &[u8], mark: u8) -> &[u8]
    ensures { length result.now ≤ length text.now }
{
    &text[..find(text, 0, mark)]
}
