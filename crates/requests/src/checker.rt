// The optional word `by=quick|plain`: which checker a request asks for.
use checking::Checker;

// The form lists the quick one first, so that it is asked where a line says nothing.
pub fn of_place(place: usize) -> Checker {
    if place == 1 {
        return Checker::Plain;
    }
    Checker::Quick
}
