// What the words of a request hold: numbers, bits and octets.
ghost use Rattle.std.specs.Prelude.{◌≡◌, ◌+◌, ◌*◌, ◌/◌, ◌<◌, ◌≤◌, IfOk, length};

use crate::faults::Fault;
use crate::octets::joined;
use std::num::{wrapping_add_u8, wrapping_sub_u8};

// The octets of the longest block, which shares the store of bits.
const BLOCK_ROOM: usize = 4_096;

pub fn is_digit(octet: u8) -> bool {
    wrapping_sub_u8(octet, b'0') < 10
}

// How far an octet lies behind `a`, in either case: one bit is all that they differ in. What lies
// before it is far behind.
fn letter(octet: u8) -> u8 {
    wrapping_sub_u8(octet | 32, b'a')
}

// The value of a hexadecimal digit. There is no branch here and in `excess`, so that many digits are
// read at once.
fn digit(octet: u8) -> u8 {
    wrapping_sub_u8(octet, b'0').min(wrapping_add_u8(letter(octet), 10))
}

// How far an octet lies behind the hexadecimal digits: 0 for a digit and for no other.
fn excess(octet: u8) -> u8 {
    over(wrapping_sub_u8(octet, b'0'), 9).min(over(letter(octet), 5))
}

// By how much x is over `most`.
fn over(x: u8, most: u8) -> u8 {
    x.saturating_sub(most)
}

// A number has at most 64 bits, as a `usize` has.
pub fn number(word: &[u8]) -> Result<usize, Fault> {
    if word.is_empty() {
        return Err(Fault::Number);
    }
    let mut value: usize = 0;
    for x in without_zeros(word) {
        if !is_digit(*x) {
            return Err(Fault::Number);
        }
        value = with_digit(value, usize::from(*x % 16)).ok_or(Fault::Number)?;
    }
    Ok(value)
}

// Zeros in front are allowed, as many as a line holds, and are only gone over.
fn without_zeros(word: &[u8]) -> &[u8] {
    let zeros = word.iter().position(|x| *x != b'0');
    &word[zeros.unwrap_or(word.len())..]
}

// A number with one more digit, where that has at most 64 bits.
fn with_digit(value: usize, d: usize) -> Option<usize> {
    value.checked_mul(10)?.checked_add(d)
}

// A mask has 1 to 16 hexadecimal digits, so that none goes over the top of a `usize`.
pub fn mask(word: &[u8]) -> Result<usize, Fault> {
    if !bits::inner::is_within(1, 16, word.len()) {
        return Err(Fault::Number);
    }
    let mut value: usize = 0;
    for x in word {
        if excess(*x) > 0 {
            return Err(Fault::Number);
        }
        value = (value << 4) | usize::from(digit(*x));
    }
    Ok(value)
}

// A number of two octets.
pub fn short(word: &[u8]) -> Result<usize, Fault> {
    let n = number(word)?;
    if n > 65535 {
        return Err(Fault::Number);
    }
    Ok(n)
}

// A number that has two octets, as such; 0 for a larger one, which is not read so far.
pub fn short_of(n: usize) -> u16 {
    u16::try_from(n).unwrap_or(0)
}

// The length of an output, for which there is so much room.
pub fn outlen(word: &[u8], room: usize) -> Result<usize, Fault>
    ensures { IfOk result (λ n. n ≤ room) }
{
    let n = number(word)?;
    if n > room {
        return Err(Fault::Long);
    }
    Ok(n)
}

// Packed octets, as those of a record. The octets of a word go into a store that is lent, whose length is
// the most that there is room for, and how many they are is answered.
pub fn octets(word: &[u8], store: &mut [u8]) -> Result<usize, Fault>
    ensures { IfOk result (λ n. n ≤ length store.old) }
{
    match word {
        b"-" => Ok(0),
        _ => hexadecimal_octets(word, store, Fault::Hex),
    }
}

pub fn block(word: &[u8], store: &mut [u8]) -> Result<usize, Fault>
    ensures { IfOk result (λ n. n ≤ length store.old) }
{
    let n = store.len().min(BLOCK_ROOM);
    octets(word, &mut store[..n])
}

// An `x:` before the digits says that they are hexadecimal.
pub fn bits(word: &[u8], store: &mut [u8]) -> Result<usize, Fault>
    ensures { IfOk result (λ n. n ≤ length store.old) }
{
    if let b"-" = word {
        return Ok(0);
    }
    match word.strip_prefix(b"x:") {
        Some(digits) => hexadecimal_octets(digits, store, Fault::Bits),
        None => decimal_octets(word, store),
    }
}

fn decimal_octets(digits: &[u8], store: &mut [u8]) -> Result<usize, Fault>
    ensures { IfOk result (λ n. n ≤ length store.old) }
{
    if digits.len() > store.len() {
        return Err(Fault::Long);
    }
    if !all_digits(digits, store) {
        return Err(Fault::Bits);
    }
    Ok(digits.len())
}

// Puts each digit into the store, and answers whether all of them are digits. No turn leaves early,
// so that many digits are read at once.
fn all_digits(digits: &[u8], store: &mut [u8]) -> bool
    requires { length digits.now ≤ length store.old }
{
    let mut good = true;
    for (i, x) in digits.iter().enumerate() {
        store[i] = *x % 16;
        good &= is_digit(*x);
    }
    good
}

// Half an octet takes the room of a whole one, so it is too long before it is half an octet.
// `other` is the fault of half an octet and of a character that is no digit.
fn hexadecimal_octets(digits: &[u8], store: &mut [u8], other: Fault) -> Result<usize, Fault>
    ensures { IfOk result (λ n. n ≤ length store.old) }
{
    if (digits.len() + 1) / 2 > store.len() {
        return Err(Fault::Long);
    }
    if digits.len() % 2 != 0 {
        return Err(other);
    }
    if !all_pairs(digits, store) {
        return Err(other);
    }
    Ok(digits.len() / 2)
}

// Puts an octet into the store for every two digits, and answers whether all of them are digits; no
// turn leaves early here either.
fn all_pairs(digits: &[u8], store: &mut [u8]) -> bool
    requires { length digits.now ≤ 2 * length store.old }
{
    if digits.len() < 32 {
        return few_pairs(digits, store);
    }
    if digits.len() < 64 {
        return many_pairs::<32>(digits, store);
    }
    many_pairs::<64>(digits, store)
}

fn few_pairs(digits: &[u8], store: &mut [u8]) -> bool
    requires { length digits.now ≤ 2 * length store.old }
{
    let mut other = 0u8;
    for i in 0..digits.len() / 2 {
        let high = digits[2 * i];
        let low = digits[2 * i + 1];
        store[i] = (digit(high) << 4) | digit(low);
        other |= excess(high) | excess(low);
    }
    other == 0
}

// N digits at once, an even number; the last N end with the digits, so some of them are read twice.
fn many_pairs<const N: usize>(digits: &[u8], store: &mut [u8]) -> bool
    requires { (2 ≤ N) × (N ≤ 64) × (N ≤ length digits.now) × (length digits.now ≤ 2 * length store.old) }
{
    let last = digits.len() - N;
    let mut good = true;
    for from in (0..digits.len()).step_by(N) {
        let at = last.min(from);
        good &= some_pairs::<N>(&digits[at..], &mut store[at / 2..]);
    }
    good
}

// The first N digits, into the first N / 2 octets.
fn some_pairs<const N: usize>(digits: &[u8], store: &mut [u8]) -> bool
    requires { (2 ≤ N) × (N ≤ 64) × (N ≤ length digits.now) × (N / 2 ≤ length store.old) }
{
    let mut row = [0u8; N];
    let good = all_values(&digits[..N], &mut row);
    put_pairs(&row, &mut store[..N / 2]);
    good
}

fn all_values(digits: &[u8], row: &mut [u8]) -> bool
    requires { length row.old ≡ length digits.now }
{
    let mut other = 0u8;
    for (k, x) in digits.iter().enumerate() {
        row[k] = digit(*x);
        other |= excess(*x);
    }
    other == 0
}

fn put_pairs(row: &[u8], store: &mut [u8])
    requires { 2 * length store.old ≤ length row.now }
{
    for i in 0..store.len() {
        store[i] = joined(row, 2 * i, 4097);
    }
}
