ghost use Rattle.std.specs.Prelude.{◌≡◌};
ghost use Rattle.ilk_layout.specs.Values as numbers;

use ilk_plant::{Aspect, Dir, Hold, Lie, Mode, Position};

/// The occupancy of one section in an image: vacant, taken by one train, or a hazard.
#[derive(Clone, Copy, PartialEq, Eq, Debug)]
pub enum Occupancy {
    /// No train is on the section.
    Vacant,
    /// A train in direction `dir` is on the section. `tail` and `head` say whether its tail and its
    /// head are there.
    Taken { dir: Dir, tail: bool, head: bool },
    /// The section has a hazard: two trains, or a train on a point that is moving or not set for
    /// it.
    Crash,
}

/// Returns the number of a route's `mode` in an image.
pub fn mode_value(mode: Mode) -> u8
    ensures { result ≡ numbers.mode_value mode }
{
    match mode {
        Mode::Free => 0,
        Mode::Marked => 1,
        Mode::Allocating => 2,
        Mode::Locked => 3,
        Mode::Occupied => 4,
    }
}

/// Returns the number of a point's detected position `lie` in an image.
pub fn detected_value(lie: Lie) -> u8
    ensures { result ≡ numbers.detected_value lie }
{
    match lie {
        Lie::Plus => 0,
        Lie::Minus => 1,
        Lie::Moving => 2,
    }
}

/// Returns the number of a point's commanded `position` in an image.
pub fn commanded_value(position: Position) -> u8
    ensures { result ≡ numbers.commanded_value position }
{
    match position {
        Position::Plus => 0,
        Position::Minus => 1,
    }
}

/// Returns the number of a board's `aspect` in an image.
pub fn aspect_value(aspect: Aspect) -> u8
    ensures { result ≡ numbers.aspect_value aspect }
{
    match aspect {
        Aspect::Open => 0,
        Aspect::Closed => 1,
    }
}

/// Returns the number of a section's lock `hold` in an image.
pub fn lock_value(hold: Hold) -> u8
    ensures { result ≡ numbers.lock_value hold }
{
    match hold {
        Hold::Free => 0,
        Hold::Locked => 1,
        Hold::Used => 2,
    }
}

/// Returns the number of a section's `occupancy` in an image.
pub fn occupancy_value(occupancy: Occupancy) -> u8
    ensures { result ≡ numbers.occupancy_value occupancy }
{
    match occupancy {
        Occupancy::Vacant => 0,
        Occupancy::Taken { dir, tail, head } => {
            let base = match dir {
                Dir::Up => 1,
                Dir::Down => 5,
            };
            base + if tail { 2 } else { 0 } + if head { 1 } else { 0 }
        }
        Occupancy::Crash => 9,
    }
}
