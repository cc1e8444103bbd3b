use ilk_log::Log;

/// The verdict on a text of another solver as a refutation of a formula.
#[derive(Drop)]
pub enum Rup {
    /// Accepted: a log that refutes the formula.
    Refuted(Log),
    /// Rejected: the number of the first bad item, from 1. If all items are right, but the empty
    /// clause doesn't follow from them, it is the number of items plus 1.
    Bad { item: u64 },
}
