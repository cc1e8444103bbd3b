use ilk_cnf::Lit;

/// A true literal on the trail, with its level and its reason: the number of the clause that forced
/// it, or `None` for a decision.
#[derive(Clone, Copy)]
pub struct Entry {
    pub lit: Lit,
    pub level: u64,
    pub reason: Option<u64>,
}
