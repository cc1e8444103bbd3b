/// The maximum number of events of a drive for each command of its scenario. With 256 sections, an
/// entry allows at most 511 events of its train. A request allows at most 162 events of the route
/// and its points.
pub const MAX_EVENTS_PER_COMMAND: u64 = 512;
