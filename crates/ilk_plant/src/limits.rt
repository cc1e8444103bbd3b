//! The limits of a configuration.

/// The maximum number of sections of a network; the minimum is 1.
pub const MAX_SECTIONS: u64 = 256;

/// The maximum number of boards of a network: two for each section, one for each direction.
pub const MAX_BOARDS: u64 = 512;

/// The maximum number of routes of a table.
pub const MAX_ROUTES: u64 = 256;

/// The maximum number of sections in a route's path; the minimum is 1.
pub const MAX_PATH: u64 = 32;

/// The maximum number of sections in a route's overlap.
pub const MAX_OVERLAP: u64 = 8;

/// The maximum number of points that a route lists in its column `points`.
pub const MAX_ROUTE_POINTS: u64 = 40;

/// The maximum number of conflicts that a route lists.
pub const MAX_ROUTE_CONFLICTS: u64 = 256;

/// The maximum number of protecting points of a route.
pub const MAX_PROTECTING_POINTS: u64 = 8;

/// The maximum number of protecting boards of a route.
pub const MAX_PROTECTING_BOARDS: u64 = 8;

/// The maximum number of characters of a name; the minimum is 1.
pub const MAX_NAME: u64 = 32;
