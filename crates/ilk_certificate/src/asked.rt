use ilk_log::Log;
use ilk_unroll::Wanted;

/// A query that was asked, and the log of its search.
#[derive(Drop)]
pub struct Asked {
    pub query: Wanted,
    /// The steps of the search.
    pub log: Log,
}
