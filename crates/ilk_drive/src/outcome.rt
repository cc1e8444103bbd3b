use ilk_model::{Event, HazardAt};
use ilk_plant::Row;

/// The result of a drive: why it ended.
#[derive(Clone, Copy, PartialEq, Eq, Debug)]
pub enum Rest {
    /// All commands were given, no train is left, and every route is Free.
    Driven,
    /// No automatic event is enabled, nor is command number `at`, from 1. If all commands were
    /// given, `at` is their number plus one, and a train or a route that isn't Free is left.
    Stuck { at: u64 },
    /// The last event led to this hazard.
    Hazard(HazardAt),
}

/// The drive of a scenario: its events from the initial state, and its result.
#[derive(Drop)]
pub struct Driven {
    pub rest: Rest,
    pub events: Row<Event>,
}
