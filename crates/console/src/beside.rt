// A result in a file: it is written beside the file and then takes its name, so that the file is never half written.
ghost use Rattle.std.specs.Prelude.{◌≤◌, ◌<◌, length};

use crate::errors::{EXISTS, Errors, NO_TEXT, TOO_LONG};
use crate::{errors, page, status};
use std::fs::{OpenFile, OpenOptions, Permissions};
use std::io::{Error, ErrorKind, Write};
use std::os::unix::fs::PermissionsExt;
use std::rt::Files;
use std::{fs, str};
use text::octets;

// The kind of a regular file, in the bits of a mode above its permissions.
const REGULAR: u32 = 8;

// How many names are tried beside a file, of which each ends in six digits of its own.
const NAMES: usize = 1_000_000;

// Writes a result to the file of this name, and answers the exit status. Where that fails, the reason is on standard error, and the file is as it was.
pub fn write(rt: &(impl Files + Errors), path: &[u8], res: &[u8]) -> i32 {
    match str::from_utf8(path) {
        Ok(name) => write_named(rt, name, res),
        Err(_) => written(failed(rt, path, &Error::from_raw_os_error(NO_TEXT))),
    }
}

fn write_named(rt: &(impl Files + Errors), path: &str, res: &[u8]) -> i32 {
    let mode = mode_of(rt, path);
    if is_replaceable(mode) {
        return written(replace(rt, path, mode, res));
    }
    written(is_put(rt, path, res))
}

fn written(done: bool) -> i32 {
    if done {
        return status::DONE;
    }
    status::FAILED
}

// The mode of the file that is there, or 0.
fn mode_of(rt: &impl Files, path: &str) -> u32 {
    match fs::open(rt, path) {
        Ok(file) => modes::of(&file),
        Err(_) => 0,
    }
}

// A device or a pipe is no file that another can take the place of.
fn is_replaceable(mode: u32) -> bool {
    if mode == 0 {
        return true;
    }
    mode / 4096 == REGULAR
}

fn is_put(rt: &(impl Files + Errors), path: &str, res: &[u8]) -> bool {
    match put(rt, path, res) {
        Ok(()) => true,
        Err(why) => failed(rt, path.as_bytes(), &why),
    }
}

fn put(rt: &impl Files, path: &str, res: &[u8]) -> Result<(), Error> {
    let mut file = fs::create(rt, path)?;
    file.write_all(res)
}

fn replace(rt: &(impl Files + Errors), path: &str, mode: u32, res: &[u8]) -> bool {
    let mut name = io::buffer();
    let n = put_name(path.as_bytes(), &mut name);
    is_replaced(rt, path, mode, &mut name[0..n], res)
}

// A name beside it, whose end is still to be found.
fn put_name(path: &[u8], name: &mut [u8]) -> usize
    ensures { result ≤ length name.old }
{
    let a = page::put(path, name, 0);
    let b = page::put(b".000000", name, a);
    b.min(name.len())
}

fn is_replaced(
    rt: &(impl Files + Errors),
    path: &str,
    mode: u32,
    beside: &mut [u8],
    res: &[u8],
) -> bool {
    match open(rt, beside) {
        Ok(file) => is_filled(rt, path, mode, beside, res, file),
        Err(why) => failed(rt, path.as_bytes(), &why),
    }
}

// The file beside it is closed before it takes the name.
fn is_filled(
    rt: &(impl Files + Errors),
    path: &str,
    mode: u32,
    beside: &[u8],
    res: &[u8],
    file: impl Write + OpenFile + Drop,
) -> bool {
    if let Err(why) = store(file, mode, res) {
        return given_up(rt, path, beside, &why);
    }
    if let Err(why) = rename(rt, beside, path) {
        return given_up(rt, path, beside, &why);
    }
    true
}

// Makes a file of a name that is free.
fn open<R: Files>(rt: &R, beside: &mut [u8]) -> Result<R::File, Error> {
    for turn in 0..NAMES {
        put_turn(turn, beside);
        match create(rt, beside) {
            Ok(file) => return Ok(file),
            Err(why) => {
                if why.kind() != ErrorKind::AlreadyExists {
                    return Err(why);
                }
            }
        }
    }
    Err(Error::from_raw_os_error(EXISTS))
}

// Puts the six digits of a turn at the end of a name.
fn put_turn(turn: usize, beside: &mut [u8]) {
    let mut rest = turn;
    for i in 0..6 {
        put_digit(rest % 10, i, beside);
        rest /= 10;
    }
}

// Puts a digit so far before the end.
fn put_digit(digit: usize, behind: usize, beside: &mut [u8])
    requires { digit < 10 }
{
    let n = beside.len();
    if behind < n {
        beside[n - 1 - behind] = b'0' + digit as u8;
    }
}

fn create<R: Files>(rt: &R, beside: &[u8]) -> Result<R::File, Error> {
    OpenOptions::new()
        .write(true)
        .create_new(true)
        .open(rt, text_of(beside)?)
}

// A name for which there was no room may have been cut within a character.
fn text_of(beside: &[u8]) -> Result<&str, Error> {
    match str::from_utf8(beside) {
        Ok(text) => Ok(text),
        Err(_) => Err(Error::from_raw_os_error(TOO_LONG)),
    }
}

fn rename(rt: &impl Files, beside: &[u8], path: &str) -> Result<(), Error> {
    fs::rename(rt, text_of(beside)?, path)
}

// Gives the file its permissions and stores the result in it, and closes it.
fn store(mut file: impl Write + OpenFile + Drop, mode: u32, res: &[u8]) -> Result<(), Error> {
    give_mode(&file, mode)?;
    is_stored(&mut file, res)
}

// Gives it the permissions of the file whose place it takes, before anything is written: a private shelf stays private.
fn give_mode(file: &impl OpenFile, mode: u32) -> Result<(), Error> {
    if mode == 0 {
        return Ok(());
    }
    file.set_permissions(Permissions::from_mode(mode % 4096))
}

// Written, and on the disk before it takes the name: after a loss of power there is the old file or the new one.
fn is_stored(file: &mut (impl Write + OpenFile), res: &[u8]) -> Result<(), Error> {
    file.write_all(res)?;
    file.sync_all()
}

// Says why, and takes away what was written.
fn given_up(rt: &(impl Files + Errors), path: &str, beside: &[u8], why: &Error) -> bool {
    failed(rt, path.as_bytes(), why);
    if let Ok(name) = str::from_utf8(beside) {
        let _ = fs::remove_file(rt, name);
    }
    false
}

fn failed(rt: &impl Errors, path: &[u8], why: &Error) -> bool {
    let mut line = io::buffer();
    let at = page::put(b"kuambyte: ", &mut line, 0);
    let end = page::put(path, &mut line, at);
    errors::fail(rt, octets::first(&line, end), why);
    false
}
