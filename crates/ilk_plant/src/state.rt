ghost use Rattle.std.specs.Prelude.{◌≡◌, IfOk};

use crate::{Dir, Position, Row};
use std::alloc::AllocError;

/// The mode of a route, from Free over its request, reservation and locking to its use by a train.
#[derive(Clone, Copy, PartialEq, Eq, Debug)]
pub enum Mode {
    Free,
    Marked,
    Allocating,
    Locked,
    Occupied,
}

/// The state of a route: its mode, the number of its path sections that a train has entered
/// (`seen`), and the number released behind the train (`rel`).
#[derive(Clone, Copy, PartialEq, Eq, Debug)]
pub struct RouteState {
    pub mode: Mode,
    pub seen: u32,
    pub rel: u32,
}

/// The detected position of a point.
#[derive(Clone, Copy, PartialEq, Eq, Debug)]
pub enum Lie {
    Plus,
    Minus,
    Moving,
}

/// The state of a point: its detected position and its commanded position.
#[derive(Clone, Copy, PartialEq, Eq, Debug)]
pub struct PointState {
    pub at: Lie,
    pub to: Position,
}

/// The aspect of a marker board's virtual signal.
#[derive(Clone, Copy, PartialEq, Eq, Debug)]
pub enum Aspect {
    Open,
    Closed,
}

/// The lock of a section: Free; Locked for a route; or Used, if a train has entered it on that
/// route.
#[derive(Clone, Copy, PartialEq, Eq, Debug)]
pub enum Hold {
    Free,
    Locked,
    Used,
}

/// A train. Its body lists the sections that it occupies, from tail to head.
#[derive(Drop)]
pub struct Train {
    pub dir: Dir,
    pub body: Row<u32>,
}

/// A state of the plant. The states of routes, points and boards, and the locks of sections, are in
/// numerical order.
#[derive(Drop)]
pub struct State {
    pub routes: Row<RouteState>,
    pub points: Row<PointState>,
    pub boards: Row<Aspect>,
    pub locks: Row<Hold>,
    pub trains: Row<Train>,
}

impl Train {
    fn copy(&self) -> Result<Train, AllocError>
        ensures { IfOk result (λ train. train ≡ self.now) }
    {
        Ok(Train {
            dir: self.dir,
            body: self.body.copy()?,
        })
    }
}

fn copy_trains(trains: &Row<Train>) -> Result<Row<Train>, AllocError>
    ensures { IfOk result (λ made. made ≡ trains.now) }
{
    let mut made = Row::new(trains.allocator());
    for train in trains.as_slice() {
        made.push(train.copy()?)?;
    }
    Ok(made)
}

impl State {
    /// Returns a copy of the state. Fails only if memory runs out.
    pub fn copy(&self) -> Result<State, AllocError>
        ensures { IfOk result (λ state. state ≡ self.now) }
    {
        Ok(State {
            routes: self.routes.copy()?,
            points: self.points.copy()?,
            boards: self.boards.copy()?,
            locks: self.locks.copy()?,
            trains: copy_trains(&self.trains)?,
        })
    }
}
