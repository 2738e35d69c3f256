// The start of the program: the desk's commands as one call, with the folder of the shelves on which the day is run.
#![tactic(auto)]

use console::host::Host;

pub fn kuambyte_run(rt: &impl Host, shelves: &[u8]) -> i32 {
    desk::run(rt, shelves)
}
