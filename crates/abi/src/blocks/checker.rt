// Which checker a number asks for. An enum does not cross; any number is taken, since both checkers give the same answer.
use checking::Checker;

// What asks for the quick one; every other number asks for the plain one.
pub const QUICK: u32 = 0;

pub fn of(number: u32) -> Checker {
    if number == QUICK {
        return Checker::Quick;
    }
    Checker::Plain
}
