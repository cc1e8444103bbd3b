use ilk_model::Event;
use ilk_plant::{Row, State};

/// A run: its first state, and its events in order.
#[derive(Drop)]
pub struct Told {
    /// The first state of the run.
    pub first: State,
    /// True if the text says `start` instead of giving the state.
    pub from_start: bool,
    pub events: Row<Event>,
}

/// The result of reading a run text: its run, or its first bad line.
#[derive(Drop)]
pub enum Tale {
    Told(Told),
    /// The number of the first bad line, from 1.
    Bad { line: u64 },
}
