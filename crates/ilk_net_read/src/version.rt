ghost use Rattle.std.specs.Prelude.{◌≡◌};
ghost use Rattle.ilk_net_read.specs.Version.{version_from_number};

/// A version of the form of a configuration.
#[derive(Clone, Copy, PartialEq, Eq, Debug)]
pub enum Version {
    /// Version 1, in which a route has no lists of protecting points and boards.
    First,
    /// Version 2, in which each route has both lists.
    Second,
}

impl Version {
    /// Returns the version with this number, 1 or 2. Returns `None` for any other number.
    pub fn from_number(number: u64) -> Option<Version>
        ensures { result ≡ version_from_number number }
    {
        match number {
            1 => Some(Version::First),
            2 => Some(Version::Second),
            _ => None,
        }
    }
}
