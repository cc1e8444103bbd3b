use ilk_cnf::Lit;

/// The status of a clause that a hint names, if some literals are set.
#[derive(Clone, Copy)]
pub(crate) enum ClauseStatus {
    /// There is no clause with this number.
    Missing,
    /// All literals of the clause are false.
    AllFalse,
    /// This literal is unset, and all others are false.
    OneUnset(Lit),
    /// A literal is true, or two are unset.
    Other,
}
