use crate::{Position, Row};

/// A point, by the number of its section, and the position that a route requires.
#[derive(Clone, Copy, PartialEq, Eq, Debug)]
pub struct Listed {
    pub point: u32,
    pub at: Position,
}

/// A route: a row of the interlocking table, with numbers in place of names. It has the direction
/// of its source board.
#[derive(Drop)]
pub struct Route {
    /// The board at which the route begins.
    pub source: u32,
    /// The board at which it ends, or `None` if it leads out of the network.
    pub destination: Option<u32>,
    /// Its sections, in the order in which a train passes them.
    pub path: Row<u32>,
    /// The sections beyond its destination that are locked with its path.
    pub overlap: Row<u32>,
    /// The points that it requires, with their positions.
    pub points: Row<Listed>,
    /// The routes that may not be set together with it.
    pub conflicts: Row<u32>,
    /// The points beside its path that are held while it is set, with their positions, so that no
    /// other train is led into it.
    pub protecting_points: Row<Listed>,
    /// The boards that are kept closed while it is locked, so that no train starts towards it.
    pub protecting_boards: Row<u32>,
}
