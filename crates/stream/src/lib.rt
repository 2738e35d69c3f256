// Requests from standard input, one to a line, and their answers to standard output.
#![tactic(auto)]

ghost use Rattle.std.specs.Prelude.{◌≤◌, ◌<◌, ◌≡◌, IfOk, IfSome, length};
ghost use Rattle.stream.specs.Room.{Stands};
ghost use Rattle.requests.specs.Room.{Roomy};

use console::errors::Errors;
use console::{errors, status};
use requests::{answers, lines};
use std::io::{Error, Read};
use text::{octets, words};

// The octets of the longest line, its newline not counted.
const LINE_ROOM: usize = 600_000;
// The octets of two shelves or records of the longest kind, of the longest word of bits, and of the
// longest output that is lent to a call.
const RECORDS_ROOM: usize = 140_000;

const BITS_ROOM: usize = 140_000;

const LENT_ROOM: usize = 140_000;
// The octets of answers that wait to be written together: one has up to two digits for each octet
// that is lent.
const OUT_ROOM: usize = 400_000;

// How far reading has come.
#[derive(Clone, Copy)]
pub struct Reading {
    // Octets of the line begun that are held.
    pub held: usize,
    // Whether that line has more octets than there is room for.
    pub long: bool,
    // Octets of the output that wait to be written.
    pub waiting: usize,
}

// What has failed, and why.
#[derive(Drop)]
enum Failed {
    Input(Error),
    Output(Error),
}

pub fn replay(rt: &(impl Input + Print + Errors)) -> i32 {
    let mut line = [0u8; LINE_ROOM];
    let mut records = [0u8; RECORDS_ROOM];
    let mut bits = [0u8; BITS_ROOM];
    let mut lent = [0u8; LENT_ROOM];
    let mut chunk = io::large_buffer();
    let mut out = [0u8; OUT_ROOM];
    let read = read_all(
        rt,
        &mut rt.reader(),
        &mut line,
        &mut records,
        &mut bits,
        &mut lent,
        &mut chunk,
        &mut out,
    );
    exit_status(rt, read)
}

fn exit_status(rt: &impl Errors, read: Result<(), Failed>) -> i32 {
    match read {
        Ok(()) => return status::DONE,
        Err(Failed::Input(why)) => errors::fail(rt, b"kuambyte: standard input", &why),
        Err(Failed::Output(why)) => errors::fail(rt, b"kuambyte: standard output", &why),
    }
    status::FAILED
}

// A proved loop has to end, and nothing says that the input does. So there are as many turns as no
// run uses up.
fn read_all(
    rt: &impl Print,
    input: &mut impl Read,
    line: &mut [u8],
    records: &mut [u8],
    bits: &mut [u8],
    lent: &mut [u8],
    chunk: &mut [u8],
    out: &mut [u8],
) -> Result<(), Failed>
    requires { (0 < length chunk.old) × Roomy 0 lent.old out.old }
{
    let mut reading = Reading {
        held: 0,
        long: false,
        waiting: 0,
    };
    for _turn in 0..u64::MAX {
        match read_some(rt, input, line, records, bits, lent, chunk, out, reading)? {
            Some(next) => reading = next,
            None => break,
        }
    }
    Ok(())
}

// Reads once, and answers each line that has ended. What waits is written before the next read, so that
// who types requests sees each answer at once, and a read that failed is reported behind the answers.
fn read_some(
    rt: &impl Print,
    input: &mut impl Read,
    line: &mut [u8],
    records: &mut [u8],
    bits: &mut [u8],
    lent: &mut [u8],
    chunk: &mut [u8],
    out: &mut [u8],
    reading: Reading,
) -> Result<Option<Reading>, Failed>
    requires { (0 < length chunk.old) × Stands reading line.old lent.old out.old }
    ensures { IfOk result (λ next. IfSome next (λ r. Stands r line.old lent.old out.old)) }
{
    let got = input.read(chunk);
    let n = received(&got, chunk);
    let answered = answer_lines(rt, &chunk[..n], line, records, bits, lent, out, reading)?;
    let after = flush(rt, out, answered)?;
    match got {
        Ok(0) => Ok(None),
        Ok(_) => Ok(Some(after)),
        Err(why) => Err(Failed::Input(why)),
    }
}

// How many octets came. The end of the input ends the last line, as a newline would.
fn received(got: &Result<usize, Error>, chunk: &mut [u8]) -> usize
    requires { 0 < length chunk.old }
    ensures { result ≤ length chunk.old }
{
    match got {
        Ok(n) if *n > 0 => chunk.len().min(*n),
        _ => {
            chunk[0] = b'\n';
            1
        }
    }
}

// Answers each line that ends in the chunk, and holds what stands behind the last.
fn answer_lines(
    rt: &impl Print,
    chunk: &[u8],
    line: &mut [u8],
    records: &mut [u8],
    bits: &mut [u8],
    lent: &mut [u8],
    out: &mut [u8],
    mut reading: Reading,
) -> Result<Reading, Failed>
    requires { Stands reading line.old lent.old out.old }
    ensures { IfOk result (λ r. Stands r line.old lent.old out.old) }
{
    let mut left = chunk;
    while let Some((piece, rest)) = words::split_once(left, b'\n') {
        reading = answer_piece(rt, piece, line, records, bits, lent, out, reading)?;
        left = rest;
    }
    Ok(hold(left, line, reading))
}

// Holds as much of a piece of the line as there is room for.
fn hold(piece: &[u8], line: &mut [u8], mut reading: Reading) -> Reading
    requires { reading.held ≤ length line.old }
    ensures { (result.held ≤ length line.old) × (result.waiting ≡ reading.waiting) }
{
    let held = reading.held;
    let n = piece.len().min(line.len() - held);
    reading.held = octets::put(&piece[..n], line, held);
    if n < piece.len() {
        reading.long = true;
    }
    reading
}

// Answers the line that ends with a piece, and begins the next.
fn answer_piece(
    rt: &impl Print,
    piece: &[u8],
    line: &mut [u8],
    records: &mut [u8],
    bits: &mut [u8],
    lent: &mut [u8],
    out: &mut [u8],
    reading: Reading,
) -> Result<Reading, Failed>
    requires { Stands reading line.old lent.old out.old }
    ensures { IfOk result (λ r. Stands r line.old lent.old out.old) }
{
    let mut ready = with_room(rt, lent, out, reading)?;
    let at = ready.waiting;
    if is_whole(piece, line, ready) {
        ready.waiting = answer_line(piece, false, records, bits, lent, out, at);
        return Ok(ready);
    }
    let whole = hold(piece, line, ready);
    let held = whole.held;
    Ok(Reading {
        held: 0,
        long: false,
        waiting: answer_line(&line[..held], whole.long, records, bits, lent, out, at),
    })
}

// Whether a piece is a line for which there is room, so that it is answered where it stands.
fn is_whole(piece: &[u8], line: &[u8], reading: Reading) -> bool {
    reading.held == 0 && piece.len() <= line.len()
}

fn answer_line(
    line: &[u8],
    long: bool,
    records: &mut [u8],
    bits: &mut [u8],
    lent: &mut [u8],
    out: &mut [u8],
    at: usize,
) -> usize
    requires { Roomy at lent.old out.old }
    ensures { result ≤ length out.old }
{
    let answer = lines::answer(line, long, records, bits, lent);
    answers::put(answer, lent, out, at)
}

// Makes room for one more answer.
fn with_room(rt: &impl Print, lent: &[u8], out: &[u8], reading: Reading) -> Result<Reading, Failed>
    requires { (reading.waiting ≤ length out.now) × Roomy 0 lent.now out.now }
    ensures { IfOk result (λ r. (r.held ≡ reading.held) × Roomy r.waiting lent.now out.now) }
{
    if out.len() - reading.waiting < answers::room(lent) {
        return flush(rt, out, reading);
    }
    Ok(reading)
}

fn flush(rt: &impl Print, out: &[u8], mut reading: Reading) -> Result<Reading, Failed>
    requires { reading.waiting ≤ length out.now }
    ensures { IfOk result (λ r. (r.held ≡ reading.held) × (r.waiting ≡ 0)) }
{
    let n = reading.waiting;
    rt.write_all(&out[..n]).map_err(Failed::Output)?;
    reading.waiting = 0;
    Ok(reading)
}
