// What the calls that change a record answer.
use words::Handle;

// What laying a record gives: its handle and the number of its counters.
#[derive(Clone, Copy, Debug, PartialEq, Eq, Hash)]
pub struct Laid {
    pub handle: Handle,
    pub counters: u64,
}

// What a change gives: the handle to go on with, and what the call answers; a second number where there is one, else 0.
#[derive(Clone, Copy, Debug, PartialEq, Eq, Hash)]
pub struct Change {
    pub handle: Handle,
    pub first: u64,
    pub second: u64,
}
