// The host: all that a command asks of the system, its words, files, standard input, standard output and standard error.
use crate::errors::Errors;
use std::rt::{Env, Files};

pub trait Host: Env + Files + Input + Print + Errors {}

impl<R: Env + Files + Input + Print + Errors> Host for R {}
