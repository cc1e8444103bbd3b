use ilk_audit::Auditor;
use ilk_unroll::Wanted;

/// The maximum number of bytes of a certificate's line that is not a proof step.
pub(crate) const MAX_NON_STEP_LINE: usize = 32;

/// The position in a certificate up to which its lines were checked.
#[derive(Drop)]
pub(crate) enum Stage {
    /// Before the first line.
    Head,
    /// Before the line `safe k`.
    Told,
    /// Before the line of a query, or before the last line if no query is left.
    Between {
        /// The number that the line `safe k` gives.
        k: u32,
        next: Option<Wanted>,
    },
    /// Among the steps of a query.
    Within {
        k: u32,
        query: Wanted,
        /// The query's formula and the steps so far, none of which has the empty clause.
        auditor: Auditor,
    },
    /// After the last line.
    Ended {
        k: u32,
    },
    /// After a bad line.
    Refused {
        line: u64,
    },
}
