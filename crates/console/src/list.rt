// Lists: texts with one entry to a line, each with its line end.
ghost use Rattle.std.specs.Prelude.{length};
ghost use Rattle.std.specs.Iterator.{at_most};

use text::octets;

// The lines of a list, without their line ends.
#[derive(Drop)]
pub struct Lines<'a>(pub &'a [u8]);

impl<'a> Iterator for Lines<'a> {
    type Item = &'a [u8];

    ghost remaining = { λ s. at_most (length s.0.now) };

    fn next(&mut self) -> Option<&'a [u8]> {
        let list = self.0;
        if list.is_empty() {
            return None;
        }
        let end = octets::find(list, 0, b'\n');
        self.0 = match list[end..].split_first() {
            Some((_, rest)) => rest,
            None => &[],
        };
        Some(&list[..end])
    }
}

// Which line has this text and nothing else, counted from 0.
pub fn find(list: &[u8], entry: &[u8]) -> Option<usize> {
    Lines(list).position(|line| line == entry)
}

pub fn count(list: &[u8]) -> usize {
    Lines(list).count()
}

pub fn has(list: &[u8], entry: &[u8]) -> bool {
    Lines(list).any(|line| line == entry)
}

// Line k, counted from 0, or an empty one where there are not so many.
pub fn line(list: &[u8], k: usize) -> &[u8] {
    Lines(list).nth(k).unwrap_or(&[])
}
