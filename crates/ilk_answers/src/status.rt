ghost use Rattle.std.specs.Prelude.{◌≡◌};
ghost use Rattle.ilk_answers.specs.Status.{code};

/// The outcome of a command, from which its exit status follows.
#[derive(Clone, Copy, PartialEq, Eq, Debug)]
pub enum Status {
    Good,
    Unsafe,
    NotInductive,
    Breach,
    Spent,
    Refused,
    Rejected,
    Usage,
    ReadFault,
    WriteFault,
    OutOfMemory,
}

impl Status {
    /// Returns the exit status of the process, 0 to 10 in the order of the variants.
    pub fn code(self) -> u8
        ensures { result ≡ code self }
    {
        self as u8
    }
}
