// Optional words: each is a name, `=` and a value, and they stand behind the other words. A form has
// them too, each with what it holds where a line does not have it. Here they are lent from the space
// before the first of them on, of which there is none where there are no optional words.
ghost use Rattle.std.specs.Prelude.{◌<◌, ◌≤◌, IfSome, length};

use crate::faults::Fault;
use crate::octets::{find, find_near};
use crate::words::Words;
use crate::{values, words};

// Where the words before the optional ones end. Most lines have no `=`, which is quickly seen.
pub fn start(text: &[u8]) -> usize
    ensures { result ≤ length text.now }
{
    if find(text, 0, b'=') == text.len() {
        return text.len();
    }
    start_from_end(text)
}

// The first word, which has no space before it, is never an optional one.
fn start_from_end(text: &[u8]) -> usize
    ensures { result ≤ length text.now }
{
    let mut end = text.len();
    while let Some(space) = last_space(&text[..end]) {
        if find(&text[..end], space, b'=') == end {
            break;
        }
        end = space;
    }
    end
}

fn last_space(text: &[u8]) -> Option<usize>
    ensures { IfSome result (λ i. i < length text.now) }
{
    text.iter().rposition(|x| *x == b' ')
}

// Whether each optional word of a line is one of the form's and stands there once.
pub fn are_known(form: &[u8], line: &[u8]) -> bool {
    let mut words = Words::<false>::of(line);
    while let Some(word) = words.next() {
        let name = name_of(word);
        if has(words.rest(), name) {
            return false;
        }
        if !has(form, name) {
            return false;
        }
    }
    true
}

fn has(options: &[u8], name: &[u8]) -> bool {
    Words::<false>::of(options).any(|word| name_of(word) == name)
}

// Reads the optional words of a request. `numbers` takes what each holds, at the place that it has
// among those of the form. The first fault on the line is answered.
pub fn read(form: &[u8], line: &[u8], numbers: &mut [usize]) -> Result<(), Fault> {
    put_defaults(form, numbers);
    if line.is_empty() {
        return Ok(());
    }
    if start_from_end(line) > 0 {
        return Err(Fault::Words);
    }
    if !are_known(form, line) {
        return Err(Fault::Words);
    }
    for word in Words::<false>::of(line) {
        read_word(form, word, numbers)?;
    }
    Ok(())
}

fn put_defaults(form: &[u8], numbers: &mut [usize]) {
    for (number, word) in numbers.iter_mut().zip(Words::<true>::of(form)) {
        *number = default(value_of(word));
    }
}

// What an optional word holds where a line does not have it: a number, or 0 for the first of several words.
fn default(value: &[u8]) -> usize {
    values::number(value).unwrap_or(0)
}

fn name_of(word: &[u8]) -> &[u8] {
    words::before(word, b'=')
}

fn value_of(word: &[u8]) -> &[u8] {
    match word[find_near(word, 0, b'=')..].split_first() {
        Some((_, value)) => value,
        None => &[],
    }
}

fn read_word(form: &[u8], word: &[u8], numbers: &mut [usize]) -> Result<(), Fault> {
    let name = name_of(word);
    for (k, of_form) in Words::<true>::of(form).enumerate() {
        if name_of(of_form) == name {
            let held = value(value_of(of_form), value_of(word))?;
            if let Some(number) = numbers.get_mut(k) {
                *number = held;
            }
        }
    }
    Ok(())
}

// What a word holds whose default begins with a digit is a number, and of any other the place of one
// of the words that `|` separates.
fn value(default: &[u8], text: &[u8]) -> Result<usize, Fault> {
    if begins_with_digit(default) {
        return values::number(text);
    }
    default
        .split(|x| *x == b'|')
        .position(|word| word == text)
        .ok_or(Fault::Words)
}

fn begins_with_digit(text: &[u8]) -> bool {
    text.first().is_some_and(|x| values::is_digit(*x))
}
