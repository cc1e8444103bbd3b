use ilk_base::Row;
use ilk_certificate::Asked;
use ilk_model::{Event, HazardAt};
use ilk_plant::State;

/// The verdict on a plant, found by runs up to a depth.
#[derive(Drop)]
pub enum Verdict {
    /// No run of any length from the initial state reaches a hazard or breaks a family. The
    /// invariant is inductive over `k` events.
    Safe {
        k: u32,
    },
    /// These events are a shortest run from the initial state to a hazard, which is `at`.
    Unsafe {
        events: Row<Event>,
        hazard: HazardAt,
    },
    /// No run within the depth reaches a hazard. These events are a shortest run from the initial
    /// state to a state that breaks a family; this is the least one that it breaks.
    Breach {
        events: Row<Event>,
        family: u8,
    },
    /// No run within the depth reaches a hazard or breaks a family, and induction fails. From the
    /// first state, as many events as the depth lead through states that meet the invariant to one
    /// that doesn't.
    NotInductive {
        first: State,
        events: Row<Event>,
    },
    /// The conflict budget of the searches is used up. Says nothing of the plant.
    Spent,
}

/// A verdict, and the queries that were asked for it.
#[derive(Drop)]
pub struct Found {
    pub verdict: Verdict,
    /// The queries in the order in which they were asked, each with its log.
    pub asked: Row<Asked>,
}
