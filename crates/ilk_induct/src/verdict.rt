use ilk_base::Row;
use ilk_certificate::Asked;
use ilk_unroll::Trace;

/// The verdict on a system and a goal, found by runs up to a depth.
#[derive(Drop)]
pub enum Verdict {
    /// No run of any length reaches a hazard or breaks a family. The invariant is inductive from
    /// `k` steps on.
    Safe { k: u32 },
    /// A shortest run from the start to a hazard.
    Unsafe(Trace),
    /// No run within the depth reaches a hazard, and this run from the start breaks a family. It is
    /// a shortest one.
    Breach(Trace),
    /// No run within the depth reaches a hazard or breaks a family, and no step query was refuted.
    /// The run of `depth` steps begins anywhere, meets the invariant before its last step, and
    /// doesn't after it.
    NotInductive(Trace),
    /// The conflict budget of the searches is used up. Says nothing of the system.
    Spent,
}

/// A verdict, and the queries asked for it.
#[derive(Drop)]
pub struct Found {
    pub verdict: Verdict,
    /// The queries in the order in which they were asked, each with its log.
    pub asked: Row<Asked>,
}
