/// The maximum value of `--depth`, the number of events up to which `verify` examines runs; the
/// minimum is 1.
pub const MAX_DEPTH: u64 = 16;

/// The default of `--depth`, the number of events up to which `verify` examines runs.
pub const DEFAULT_DEPTH: u64 = 4;

/// The maximum value of `--conflicts`, the conflict budget of all searches of a verdict together.
pub const MAX_TOTAL_CONFLICTS: u64 = 200000;

/// The default of `--conflicts`, the conflict budget of all searches of a verdict together.
pub const DEFAULT_TOTAL_CONFLICTS: u64 = 100000;

/// The maximum number of stations of a generated line; the minimum is 1.
pub const MAX_STATIONS: u64 = 16;

/// The maximum number of events of the run that `export` or `rup` asks for. The minimum is 1 for a
/// step query, otherwise 0.
pub const MAX_QUERY_EVENTS: u64 = 16;
