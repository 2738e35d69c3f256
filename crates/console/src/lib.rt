// The console: what every command needs of the command line, of files and of pages.
#![tactic(auto)]

pub mod argv;
mod beside;
pub mod counted;
pub mod errors;
pub mod files;
pub mod help;
pub mod host;
pub mod list;
pub mod meanings;
pub mod page;
pub mod parts;
pub mod status;
