// An entry of a table.
use line::time::When;

// The number of its line, where that line starts, the bytes of its command, from `start` to before `end`, and the offset from UTC
// that its time is under.
#[derive(Clone, Copy)]
pub struct Entry {
    pub when: When,
    pub line: u16,
    pub at: u16,
    pub start: u16,
    pub end: u16,
    pub offset: i32,
}
