/// The answer after each piece of a text that is checked as a certificate.
#[derive(Clone, Copy, PartialEq, Eq, Debug)]
pub enum Fed {
    /// No line so far is bad.
    More,
    /// The line with this number, from 1, is the first bad one.
    Bad { line: u64 },
}

/// The answer at the end of a text that is checked as a certificate.
#[derive(Clone, Copy, PartialEq, Eq, Debug)]
pub enum Ended {
    /// It is a certificate for `k`: for safety by induction over `k` steps.
    Accepted { k: u32 },
    /// It is not a certificate; the line with this number, from 1, is the first bad one.
    Rejected { line: u64 },
}
