// Faults: why a line is answered `error`.
#[derive(Clone, Copy)]
pub enum Fault {
    Request,
    Words,
    Number,
    Long,
    Bits,
    Hex,
    // The line is a request, and the call did not keep to the output that was lent to it.
    Output,
}
