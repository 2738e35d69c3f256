// Numbers as the digits that an answer shows them with.
ghost use Rattle.std.specs.Prelude.{◌+◌, ◌≤◌, length};

use crate::octets::{put, put_one};

pub fn decimal(n: u64, out: &mut [u8], at: usize) -> usize
    requires { at + 20 ≤ length out.old }
    ensures { result ≤ at + 20 }
{
    if n < 10 {
        return put_one(b'0' + (n as u8), out, at);
    }
    several_digits(n, out, at)
}

fn several_digits(n: u64, out: &mut [u8], at: usize) -> usize
    requires { at + 20 ≤ length out.old }
    ensures { result ≤ at + 20 }
{
    let mut text = [0u8; 20];
    let k = io::decimal(n, &mut text);
    put(&text[..k], out, at)
}

// A number behind another.
pub fn next_decimal(n: u64, out: &mut [u8], at: usize) -> usize
    requires { at + 21 ≤ length out.old }
    ensures { result ≤ at + 21 }
{
    let next = put_one(b' ', out, at);
    decimal(n, out, next)
}

// Without leading zeros.
pub fn hexadecimal(n: u64, out: &mut [u8], at: usize) -> usize
    requires { at + 16 ≤ length out.old }
    ensures { result ≤ at + 16 }
{
    let mut text = [0u8; 16];
    let k = io::hex(n, 1, &mut text);
    put(&text[..k], out, at)
}
