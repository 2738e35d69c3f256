// Octets of an output as the digits that an answer shows them with.
ghost use Rattle.std.specs.Prelude.{◌≡◌, ◌+◌, ◌*◌, ◌<◌, ◌≤◌, length};
ghost use Rattle.text.specs.Digits.{digits_of};

use crate::octets::{joined, put_one};

// What the octets are.
#[derive(Clone, Copy)]
pub enum Shown {
    // A decimal digit for each octet.
    Places,
    // Two hexadecimal digits for eight bits, the first of them highest, with zeros behind the last.
    Bits,
    // Two hexadecimal digits for each octet.
    Octets,
}

// The largest octet that can be shown.
pub fn largest(shown: Shown) -> u8 {
    match shown {
        Shown::Places => 9,
        Shown::Bits => 1,
        Shown::Octets => 255,
    }
}

// Puts the digits of s into `out`, and answers the place behind them. A dash stands for no octets.
pub fn put(shown: Shown, s: &[u8], out: &mut [u8], at: usize) -> usize
    requires { at + 2 * length s.now < length out.old }
    ensures { result ≤ at + 2 * length s.now + 1 }
{
    if s.len() == 0 {
        return put_one(b'-', out, at);
    }
    put_all(shown, s, out, at)
}

fn put_all(shown: Shown, s: &[u8], out: &mut [u8], at: usize) -> usize
    requires { at + 2 * length s.now < length out.old }
    ensures { (result ≡ at + digits_of shown (length s.now)) × (result ≤ at + 2 * length s.now) }
{
    match shown {
        Shown::Places => put_places(s, out, at),
        Shown::Bits => put_bits(s, out, at),
        Shown::Octets => put_octets(s, out, at),
    }
}

// The masks here and in `bit` change nothing in an octet that can be shown (`largest`).
fn put_places(s: &[u8], out: &mut [u8], at: usize) -> usize
    requires { at + length s.now ≤ length out.old }
    ensures { result ≡ at + digits_of Shown.Places (length s.now) }
{
    for (k, place) in s.iter().enumerate() {
        out[at + k] = b'0' + *place % 16;
    }
    at + s.len()
}

fn put_octets(s: &[u8], out: &mut [u8], at: usize) -> usize
    requires { at + 2 * length s.now ≤ length out.old }
    ensures { result ≡ at + digits_of Shown.Octets (length s.now) }
{
    for (k, octet) in s.iter().enumerate() {
        put_octet(*octet, out, at + 2 * k);
    }
    at + 2 * s.len()
}

fn put_octet(octet: u8, out: &mut [u8], at: usize)
    requires { at + 2 ≤ length out.old }
{
    let next = put_one(character(octet / 16), out, at);
    put_one(character(octet % 16), out, next);
}

// Every four bits are joined in two steps. What the first gives waits behind the digits, where the
// output has room and nothing stands yet.
fn put_bits(s: &[u8], out: &mut [u8], at: usize) -> usize
    requires { at + 2 * length s.now ≤ length out.old }
    ensures { (result ≡ at + digits_of Shown.Bits (length s.now)) × (result ≤ at + 2 * length s.now) }
{
    let n = s.len() / 4;
    put_twos(s, 2 * n, out, at + n);
    put_fours(n, out, at);
    put_last(s, n, out, at)
}

fn put_twos(s: &[u8], n: usize, out: &mut [u8], at: usize)
    requires { (2 * n ≤ length s.now) × (at + n ≤ length out.old) }
{
    for k in 0..n {
        out[at + k] = joined(s, 2 * k, 513);
    }
}

// The twos begin behind n digits.
fn put_fours(n: usize, out: &mut [u8], at: usize)
    requires { at + 3 * n ≤ length out.old }
{
    for k in 0..n {
        out[at + k] = character(joined(out, at + n + 2 * k, 1025) % 16);
    }
}

// The digits behind the first n, which whole fours stand for, and the place behind all of them.
fn put_last(s: &[u8], n: usize, out: &mut [u8], at: usize) -> usize
    requires { (n ≤ length s.now) × (at + 2 * length s.now ≤ length out.old) }
    ensures { (result ≡ at + digits_of Shown.Bits (length s.now)) × (result ≤ at + 2 * length s.now) }
{
    let end = (s.len() + 7) / 8 * 2;
    for k in n..end {
        out[at + k] = character(four(s, 4 * k));
    }
    at + end
}

// The digit that four bits from `at` on stand for.
fn four(s: &[u8], at: usize) -> u8
    requires { at ≤ length s.now + 8 }
    ensures { result < 16 }
{
    8 * bit(s, at) + 4 * bit(s, at + 1) + 2 * bit(s, at + 2) + bit(s, at + 3)
}

// Behind the last bit there are zeros.
fn bit(s: &[u8], at: usize) -> u8
    ensures { result < 2 }
{
    if at < s.len() {
        return s[at] % 2;
    }
    0
}

fn character(digit: u8) -> u8
    requires { digit < 16 }
{
    b'0' + digit + gap(digit)
}

// The octets between the digits and the letters, for a letter.
fn gap(digit: u8) -> u8
    ensures { result ≤ 39 }
{
    if digit < 10 {
        return 0;
    }
    b'a' - b'0' - 10
}
