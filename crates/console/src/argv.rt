// The words of the command line: those behind the command, in their order or by their names, the options among them, and the numbers that they hold.
ghost use Rattle.std.specs.Prelude.{◌-◌, ◌≤◌, IfSome, length};
ghost use Rattle.std.specs.Iterator.{at_most};

use crate::errors::Errors;
use crate::list::Lines;
use crate::{list, page};
use std::env::FillError;
use std::rt::Env;
use text::{octets, values};

// What stands behind the command. Options may stand anywhere among the words and are no words.
#[derive(Clone, Copy)]
pub struct Words {
    // Whether --help is given.
    pub help: bool,
    // Whether --text is given, --plain and --svg.
    pub text: bool,
    pub plain: bool,
    pub svg: bool,
}

// How many words the command line has, the name of the program among them.
pub fn count(rt: &impl Env) -> usize {
    for i in 0..usize::MAX {
        if is_missing(rt, i) {
            return i;
        }
    }
    usize::MAX
}

fn is_missing(rt: &impl Env, i: usize) -> bool {
    let mut start = [0u8; 1];
    match rt.arg(i, &mut start) {
        Err(FillError::NotPresent) => true,
        _ => false,
    }
}

// Puts the word at place i at the start of `word` and answers its length, or 0 where there is none or it is longer.
pub fn read(rt: &impl Env, i: usize, word: &mut [u8]) -> usize
    ensures { result ≤ length word.new }
{
    match rt.arg(i, word) {
        Ok(n) => n,
        Err(_) => 0,
    }
}

pub fn all_words(rt: &impl Env) -> Words {
    Words {
        help: is_given(rt, b"--help"),
        text: is_given(rt, b"--text"),
        plain: is_given(rt, b"--plain"),
        svg: is_given(rt, b"--svg"),
    }
}

// The same of a command whose help is asked for by name.
pub fn for_help() -> Words {
    Words {
        help: true,
        text: false,
        plain: false,
        svg: false,
    }
}

// What a word of the command line is.
#[derive(Clone, Copy)]
enum Kind {
    Word,
    // An option without a value.
    Flag,
    // An option whose value stands behind it, or a word's name.
    Valued,
}

// An option is one word in one of the two lists, and so is the name of a word; each command says by `fits` which it takes.
fn kind_of(word: &[u8]) -> Kind {
    match word {
        b"--help" | b"--text" | b"--plain" | b"--svg" => Kind::Flag,
        b"-o"
        | b"--rv"
        | b"--edition"
        | b"--private"
        | b"--public"
        | b"--tenant"
        | b"--profile"
        | b"--layers"
        | b"--order"
        | b"--bits"
        | b"--length"
        | b"--octets"
        | b"--record"
        | b"--kind"
        | b"--file"
        | b"--z" => Kind::Valued,
        _ => Kind::Word,
    }
}

fn kind_at(rt: &impl Env, i: usize) -> Kind {
    let mut word = io::buffer();
    let n = read(rt, i, &mut word);
    kind_of(&word[..n])
}

// Where a word or an option stands, counted from the program's name, and the place behind it, where the value of an option stands.
#[derive(Clone, Copy)]
struct Placed {
    at: usize,
    behind: usize,
}

// The words and options behind the command. A value is passed with its option.
#[derive(Drop)]
struct Line<'a, R: Env> {
    rt: &'a R,
    at: usize,
    end: usize,
}

impl<'a, R: Env> Line<'a, R> {
    fn of(rt: &'a R) -> Self {
        Self {
            rt,
            at: 2,
            end: count(rt),
        }
    }
}

impl<'a, R: Env> Iterator for Line<'a, R> {
    type Item = Placed;

    ghost remaining = { λ s. at_most (s.end - s.at) };

    fn next(&mut self) -> Option<Placed> {
        let at = self.at;
        if at >= self.end {
            return None;
        }
        let behind = at + 1;
        self.at = match kind_at(self.rt, at) {
            Kind::Valued => self.end.min(behind.saturating_add(1)),
            _ => behind,
        };
        Some(Placed { at, behind })
    }
}

fn find(rt: &impl Env, option: &[u8]) -> Option<Placed> {
    Line::of(rt).find(|placed| is_word(rt, placed.at, option))
}

// Where the value of an option stands, where the option is given; behind the last word where it has none.
pub fn value_of(rt: &impl Env, option: &[u8]) -> Option<usize> {
    match find(rt, option) {
        Some(placed) => Some(placed.behind),
        None => None,
    }
}

pub fn is_given(rt: &impl Env, option: &[u8]) -> bool {
    find(rt, option).is_some()
}

fn is_word(rt: &impl Env, i: usize, what: &[u8]) -> bool {
    let mut word = io::buffer();
    let n = read(rt, i, &mut word);
    &word[..n] == what
}

// Where word k behind the command stands, names and options not counted.
fn nth(rt: &impl Env, k: usize) -> Option<usize> {
    Line::of(rt)
        .map(|placed| placed.at)
        .filter(|i| matches!(kind_at(rt, *i), Kind::Word))
        .nth(k)
}

// Where the word with this name stands, or the end where it is not given. `names` has the names of all words of a command in their order.
pub fn place(rt: &impl Env, names: &[u8], name: &[u8]) -> usize {
    given(rt, names, name).unwrap_or(count(rt))
}

// The same of a word that is given: behind its name or, among those that have none, in its turn.
fn given(rt: &impl Env, names: &[u8], name: &[u8]) -> Option<usize> {
    let end = count(rt);
    match value_of(rt, name) {
        Some(at) => Some(at).filter(|i| *i < end),
        None => {
            let k = list::find(names, name).unwrap_or(list::count(names));
            nth(rt, without_name(rt, names, k))
        }
    }
}

// How many of the first k words have to be given without their names, since they are not given by name.
fn without_name(rt: &impl Env, names: &[u8], k: usize) -> usize {
    Lines(names)
        .take(k)
        .filter(|name| !is_given(rt, *name))
        .count()
}

// Whether the words and options are those of a command: its words by their names, of which the first so many are needed, and its options. What is wrong is
// said on standard error.
pub fn fits(rt: &(impl Env + Errors), names: &[u8], needed: usize, options: &[u8]) -> bool {
    if !are_known(rt, names, options) {
        return false;
    }
    if !are_enough(rt, names, needed) {
        return false;
    }
    if let Some(more) = nth(rt, without_name(rt, names, list::count(names))) {
        return wrong(rt, b"'", more, b"' is a word too many");
    }
    true
}

fn are_known(rt: &(impl Env + Errors), names: &[u8], options: &[u8]) -> bool {
    Line::of(rt).all(|placed| is_known(rt, placed, names, options))
}

// Whether what stands at a place may stand there: a word, or an option that the command takes, once and with its value.
fn is_known(rt: &(impl Env + Errors), placed: Placed, names: &[u8], options: &[u8]) -> bool {
    let i = placed.at;
    let mut room = io::buffer();
    let n = read(rt, i, &mut room);
    let word = &room[..n];
    let kind = kind_of(word);
    if let Kind::Word = kind {
        return is_no_option(rt, i, word);
    }
    if !is_taken(word, names, options) {
        return wrong(rt, b"this command takes no ", i, b"");
    }
    if find(rt, word).is_some_and(|first| first.at < i) {
        return wrong(rt, b"", i, b" is given twice");
    }
    if matches!(kind, Kind::Valued) && placed.behind >= count(rt) {
        return wrong(rt, b"nothing stands behind ", i, b"");
    }
    true
}

fn is_no_option(rt: &(impl Env + Errors), i: usize, word: &[u8]) -> bool {
    if word.starts_with(b"--") {
        return wrong(rt, b"there is no option ", i, b"");
    }
    true
}

fn is_taken(word: &[u8], names: &[u8], options: &[u8]) -> bool {
    list::has(names, word) || list::has(options, word)
}

// Whether the first so many words of a command are given.
fn are_enough(rt: &(impl Env + Errors), names: &[u8], needed: usize) -> bool {
    for name in Lines(names).take(needed) {
        if given(rt, names, name).is_none() {
            return missing(rt, name);
        }
    }
    true
}

fn missing(rt: &impl Errors, name: &[u8]) -> bool {
    let mut line = io::buffer();
    let a = page::put(b"kuambyte: ", &mut line, 0);
    let b = put_label(name, &mut line, a);
    let c = page::put(b" is missing; it may be given as ", &mut line, b);
    let d = page::put(name, &mut line, c);
    let e = page::put(b" too\n", &mut line, d);
    rt.say(octets::first(&line, e));
    false
}

// Says what is wrong with what stands at place i.
fn wrong(rt: &(impl Env + Errors), before: &[u8], i: usize, behind: &[u8]) -> bool {
    let mut word = io::buffer();
    let n = read(rt, i, &mut word);
    let mut line = io::buffer();
    let a = page::put(b"kuambyte: ", &mut line, 0);
    let b = page::put(before, &mut line, a);
    let c = page::put(octets::first(&word[..n], 100), &mut line, b);
    let d = page::put(behind, &mut line, c);
    let e = page::put(b"\n", &mut line, d);
    rt.say(octets::first(&line, e));
    false
}

// Puts the name of a word as a usage has it, in capitals and without what stands before it.
fn put_label(name: &[u8], line: &mut [u8], at: usize) -> usize {
    let mut end = at;
    for letter in name {
        end = put_capital(*letter, line, end);
    }
    end
}

fn put_capital(letter: u8, line: &mut [u8], at: usize) -> usize {
    if letter == b'-' {
        return at;
    }
    page::put(&[letter & 0b1101_1111], line, at)
}

// The number that the word with this name holds, from 0 to `most`. Where it holds none, that is said on standard error.
pub fn read_number(
    rt: &(impl Env + Errors),
    names: &[u8],
    name: &[u8],
    most: usize,
) -> Option<usize>
    ensures { IfSome result (λ n. n ≤ most) }
{
    let mut label = io::buffer();
    let n = put_label(name, &mut label, 0);
    let mut word = io::buffer();
    let m = read(rt, place(rt, names, name), &mut word);
    named(rt, &word[..m], octets::first(&label, n), most)
}

// The same, or this number where the word is not given.
pub fn read_or(
    rt: &(impl Env + Errors),
    names: &[u8],
    name: &[u8],
    most: usize,
    otherwise: usize,
) -> Option<usize> {
    match given(rt, names, name) {
        Some(_) => read_number(rt, names, name, most),
        None => Some(otherwise),
    }
}

// The number that stands behind an option, from 0 to `most`, or this one where the option is not given.
pub fn read_option(
    rt: &(impl Env + Errors),
    option: &[u8],
    name: &[u8],
    most: usize,
    otherwise: usize,
) -> Option<usize> {
    let Some(at) = value_of(rt, option) else {
        return Some(otherwise);
    };
    let mut word = io::buffer();
    let n = read(rt, at, &mut word);
    named(rt, &word[..n], name, most)
}

// The number that a word holds. Another word is named on standard error.
fn named(rt: &impl Errors, word: &[u8], name: &[u8], most: usize) -> Option<usize>
    ensures { IfSome result (λ n. n ≤ most) }
{
    match values::number(word) {
        Ok(n) if n <= most => Some(n),
        _ => {
            complain(rt, word, name, most);
            None
        }
    }
}

fn complain(rt: &impl Errors, word: &[u8], name: &[u8], most: usize) {
    let mut line = io::buffer();
    let a = page::put(b"kuambyte: ", &mut line, 0);
    let b = page::put(name, &mut line, a);
    let c = page::form(b" is a number from 0 to #, and '", &[most], &mut line, b);
    let d = page::put(octets::first(word, 100), &mut line, c);
    let e = page::put(b"' is none\n", &mut line, d);
    rt.say(octets::first(&line, e));
}
