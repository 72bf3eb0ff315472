// Why a board refuses.

#[derive(Clone, Copy, PartialEq, Eq, Debug)]
pub enum Fault {
    // The lent words don't suffice for memory and the row.
    Short,
    // More than sixteen lines would wait.
    Full,
    // A line outside memory waits, is asked for or is written.
    Outside,
}
