// A page: text that is put together first and written in one piece. Every page has more room than its longest text; what has no room is left out.
use text::octets;

// Puts a piece behind the first `at` octets, and answers where the text then ends.
pub fn put(piece: &[u8], page: &mut [u8], at: usize) -> usize {
    let from = at.min(page.len());
    let n = piece.len().min(page.len() - from);
    octets::put(&piece[..n], page, from)
}

// Puts a number behind the text.
pub fn decimal(n: usize, page: &mut [u8], at: usize) -> usize {
    let mut digits = [0u8; 20];
    let k = io::decimal(n as u64, &mut digits);
    put(&digits[..k], page, at)
}

// Puts a number behind the text, with spaces before it up to a width of at most 16.
pub fn right(n: usize, width: usize, page: &mut [u8], at: usize) -> usize {
    let mut digits = [0u8; 20];
    let k = io::decimal(n as u64, &mut digits);
    let next = spaces(width, k, page, at);
    put(&digits[..k], page, next)
}

fn spaces(width: usize, taken: usize, page: &mut [u8], at: usize) -> usize {
    if width < taken {
        return at;
    }
    put(octets::first(b"                ", width - taken), page, at)
}

// Puts a form behind the text: each # in it stands for the next of the numbers.
pub fn form(form: &[u8], numbers: &[usize], page: &mut [u8], at: usize) -> usize {
    let mut numbers = numbers.iter();
    let mut end = at;
    for piece in form.split_inclusive(|x| *x == b'#') {
        match piece.strip_suffix(b"#") {
            Some(text) => {
                end = put(text, page, end);
                end = number(numbers.next(), page, end);
            }
            None => end = put(piece, page, end),
        }
    }
    end
}

fn number(n: Option<&usize>, page: &mut [u8], at: usize) -> usize {
    match n {
        Some(n) => decimal(*n, page, at),
        None => at,
    }
}
