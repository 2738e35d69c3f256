// Reads lines with optional words by forms of its own, and prints behind each line what its words gave.
#![tactic(auto)]

ghost use Rattle.std.specs.Prelude.{◌≤◌, IfOk, length};

use std::io::{Error, Read};
use text::faults::Fault;
use text::forms::WORDS;
use text::{forms, options, words};

fn main(rt: HostRuntime) -> Result<(), Error> {
    let mut buffer = io::large_buffer();
    let n = read_full(&mut rt.reader(), &mut buffer)?;
    read_lines(
        &rt,
        b"bare A
recv A BITS rv=0 by=quick|plain
plan A ed=1
flag by=quick|plain",
        &buffer[..n],
    )
}

// Reads until the room is full or the input ends, and answers how many octets came.
fn read_full(from: &mut impl Read, room: &mut [u8]) -> Result<usize, Error>
    ensures { IfOk result (λ n. n ≤ length room.new) }
{
    let mut done = 0;
    while done < room.len() {
        let n = from.read(&mut room[done..])?;
        if n == 0 {
            return Ok(done);
        }
        done += n;
    }
    Ok(done)
}

fn read_lines(rt: &impl Print, forms: &[u8], lines: &[u8]) -> Result<(), Error> {
    for line in lines.split_inclusive(|x| *x == b'\n') {
        read_line(rt, forms, line.strip_suffix(b"\n").unwrap_or(line))?;
    }
    Ok(())
}

fn read_line(rt: &impl Print, forms: &[u8], line: &[u8]) -> Result<(), Error> {
    rt.write_all(line)?;
    rt.write_all(b" ->")?;
    let name = words::before(line, b' ');
    match forms
        .split(|x| *x == b'\n')
        .find(|form| words::before(form, b' ') == name)
    {
        Some(form) => read_form(rt, form, line),
        None => print_fault(rt, Fault::Request),
    }
}

fn read_form(rt: &impl Print, form: &[u8], line: &[u8]) -> Result<(), Error> {
    let mut numbers = [0usize; WORDS];
    let mut records = [0u8; 2];
    let mut bits = [0u8; 8];
    let (words, optional) = form.split_at(options::start(form));
    match forms::read(
        words,
        optional,
        line,
        &mut numbers,
        &mut records,
        &mut bits,
        0,
    ) {
        Ok(_) => print_numbers(rt, &numbers, words::count(form).unwrap_or(0)),
        Err(why) => print_fault(rt, why),
    }
}

fn print_fault(rt: &impl Print, why: Fault) -> Result<(), Error> {
    match why {
        Fault::Request => rt.write_all(b" error request\n"),
        Fault::Words => rt.write_all(b" error words\n"),
        Fault::Number => rt.write_all(b" error number\n"),
        Fault::Long => rt.write_all(b" error long\n"),
        Fault::Bits => rt.write_all(b" error bits\n"),
        Fault::Hex => rt.write_all(b" error hex\n"),
        Fault::Output => rt.write_all(b" error output\n"),
    }
}

// What each word of the form holds, but for the first, which names the request.
fn print_numbers(rt: &impl Print, numbers: &[usize], count: usize) -> Result<(), Error> {
    for number in numbers.iter().take(count).skip(1) {
        print!(rt; " {number}")?;
    }
    rt.write_all(b"\n")
}
