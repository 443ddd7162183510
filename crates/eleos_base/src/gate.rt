// Where a caller stands in its program.

/// It is called before each command of a caller, with the caller's number and the place of the
/// command in its program, from 0, and once after the last one with the number of commands. A test
/// can let callers wait for each other there.
pub trait Gate {
    fn reach(&self, who: u32, command: u32);
}
