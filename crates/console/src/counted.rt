// Counts as a table shows them.
use crate::page;

// How much of `all` is left.
pub fn left(all: usize, used: usize) -> usize {
    all.saturating_sub(used)
}

// How often a number goes into another, and 0 times where it is 0.
pub fn per(all: usize, each: usize) -> usize {
    all.checked_div(each).unwrap_or(0)
}

// Puts a rate in lowest terms, with spaces before it up to a width of its first number.
pub fn put_rate(part: usize, whole: usize, width: usize, page: &mut [u8], at: usize) -> usize {
    let common = common_divisor(part, whole);
    let a = page::right(per(part, common), width, page, at);
    let b = page::put(b"/", page, a);
    page::decimal(per(whole, common), page, b)
}

// The greatest common divisor, by Euclid's way: 0 only of two noughts.
fn common_divisor(a: usize, b: usize) -> usize {
    let mut large = a;
    let mut small = b;
    while small > 0 {
        let rest = large % small;
        large = small;
        small = rest;
    }
    large
}
