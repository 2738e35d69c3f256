// The program `kuambyte`. The day is run on the shelves of the folder that is named here; launch/build puts another in its place for an installed program.
#![tactic(auto)]

use std::process::ExitCode;

// What the exit status is where the commands answer none.
const FAILED: u8 = 74;

fn main(rt: HostRuntime) -> ExitCode {
    let status = start::kuambyte_run(&rt, b"shelves");
    match u8::try_from(status) {
        Ok(status) => ExitCode::from(status),
        Err(_) => ExitCode::from(FAILED),
    }
}
