// The two shelves of a hosted call, each read into a half of one store.
use crate::asked::Parameters;
use crate::refusal;
use bits::number::Refusal;
use console::errors::Errors;
use console::{files, page};
use std::rt::{Env, Files};
use text::octets;

// A shelf has at most 65,535 octets, so of one that is too long a half has one more than is accepted.
pub const STORE: usize = 131_072;

#[derive(Clone, Copy)]
pub struct Shelves<'a> {
    pub private: &'a [u8],
    pub public: &'a [u8],
}

// Reads the files that the words PRIVATE and PUBLIC name; none where one could not be read. `names` has the names of all words of the command.
pub fn named<'a>(
    rt: &(impl Env + Files + Errors),
    names: &[u8],
    store: &'a mut [u8],
) -> Option<Shelves<'a>> {
    let half = store.len() / 2;
    let own = files::named(rt, names, b"--private", &mut store[..half])?;
    let all = files::named(rt, names, b"--public", &mut store[half..])?;
    Some(Shelves {
        private: octets::first(&store[..half], own),
        public: octets::first(&store[half..], all),
    })
}

// Reads the shelves of a folder, on which the command `day` is run.
pub fn in_folder<'a>(
    rt: &(impl Files + Errors),
    folder: &[u8],
    store: &'a mut [u8],
) -> Option<Shelves<'a>> {
    let half = store.len() / 2;
    let own = in_file(rt, folder, b"/private.shelf", &mut store[..half])?;
    let all = in_file(rt, folder, b"/public.shelf", &mut store[half..])?;
    Some(Shelves {
        private: octets::first(&store[..half], own),
        public: octets::first(&store[half..], all),
    })
}

fn in_file(
    rt: &(impl Files + Errors),
    folder: &[u8],
    name: &[u8],
    store: &mut [u8],
) -> Option<usize> {
    let mut path = io::buffer();
    let at = page::put(folder, &mut path, 0);
    let end = page::put(name, &mut path, at);
    files::of_path(rt, octets::first(&path, end), store)
}

impl<'a> Shelves<'a> {
    // The record that is given, empty where none is.
    pub fn record(self, asked: Parameters) -> &'a [u8] {
        shelf::lookup(self.private, self.public, asked.tenant, asked.profile).unwrap_or(&[])
    }
}

// The refusal of a hosted call.
pub fn refuse(rt: &impl Errors, refusal: Refusal, asked: Parameters, shelves: Shelves) -> i32 {
    refusal::write(rt, refusal, shelves.record(asked), asked)
}
