// The mode of an open file: its kind and its permissions, as the system keeps them.
#![tactic(auto)]

ghost use Rattle.std.specs.Prelude.{◌≡◌, IfOk, IfErr};
ghost use Rattle.std.specs.Fs.{metadata_mode};

use std::fs::{Metadata, OpenFile};
use std::io;
use std::os::unix::fs::MetadataExt;

// What the record says is good only where the system gave one.
fn told(asked: io::Result<Metadata>) -> u32
    ensures given { IfOk asked (λ s. result ≡ metadata_mode s) }
    ensures failed { IfErr asked (λ _. result ≡ 0) }
{
    match asked {
        Ok(s) => s.mode(),
        Err(_) => 0,
    }
}

// The mode of an open file, its kind and its permissions (st_mode), or 0 where it cannot be told.
pub fn of(file: &impl OpenFile) -> u32 {
    told(file.metadata())
}
