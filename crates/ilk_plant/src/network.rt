ghost use Rattle.std.specs.Prelude.{◌≡◌, slice_get};
ghost use Rattle.ilk_plant.specs.Network.{neighbours_on, board_on, inward_if_border, is_point};

/// A running direction: down or up, the same for the whole network.
#[derive(Clone, Copy, PartialEq, Eq, Debug)]
pub enum Dir {
    Up,
    Down,
}

/// A position of a point, or the leg to which the point leads in that position.
#[derive(Clone, Copy, PartialEq, Eq, Debug)]
pub enum Position {
    Plus,
    Minus,
}

/// A track section. It refers to its neighbours and marker boards by number.
#[derive(Clone, Copy, PartialEq, Eq, Debug)]
pub enum Section {
    /// A plain stretch of track, with at most one neighbour on each side and at most one board for
    /// each direction.
    Linear {
        down: Option<u32>,
        up: Option<u32>,
        board_down: Option<u32>,
        board_up: Option<u32>,
    },
    /// A point. If it faces up, its stem is on the down side and both legs are on the up side. If
    /// it faces down, the sides are reversed.
    Point {
        stem: u32,
        plus: u32,
        minus: u32,
        faces: Dir,
    },
}

/// A marker board, on a section, for trains in one direction.
#[derive(Clone, Copy, PartialEq, Eq, Debug)]
pub struct Board {
    pub section: u32,
    pub dir: Dir,
}

impl Section {
    /// Returns neighbour `i`, from 0, of the section on side `d`, or `None` if it does not exist.
    /// If the section is a point that faces `d`, neighbour 0 is the plus leg and 1 the minus leg.
    pub fn nth_neighbour_on(&self, d: Dir, i: u32) -> Option<u32>
        ensures { result ≡ slice_get (neighbours_on self.now d) i }
    {
        match (self, i) {
            (Section::Linear { down, up, .. }, 0) => match d {
                Dir::Down => *down,
                Dir::Up => *up,
            },
            (
                Section::Point {
                    stem,
                    plus,
                    faces,
                    ..
                },
                0,
            ) => { Some(if *faces == d { *plus } else { *stem }) }
            (Section::Point { minus, faces, .. }, 1) if *faces == d => Some(*minus),
            _ => None,
        }
    }

    /// Returns the number of the section's board for trains in direction `d`, if there is one.
    pub fn board_on(&self, d: Dir) -> Option<u32>
        ensures { result ≡ board_on self.now d }
    {
        match (self, d) {
            (Section::Linear { board_down, .. }, Dir::Down) => *board_down,
            (Section::Linear { board_up, .. }, Dir::Up) => *board_up,
            (Section::Point { .. }, _) => None,
        }
    }

    /// Returns whether the section is a point rather than a linear section.
    pub fn is_point(&self) -> bool
        ensures { result ≡ is_point self.now }
    {
        matches!(self, Section::Point { .. })
    }

    /// Returns the direction in which trains enter the network at this section, or `None` if it is
    /// not a border. A border is a linear section with exactly one neighbour missing.
    pub fn inward_if_border(&self) -> Option<Dir>
        ensures { result ≡ inward_if_border self.now }
    {
        match self {
            Section::Linear {
                down: None,
                up: Some(_),
                ..
            } => Some(Dir::Up),
            Section::Linear {
                down: Some(_),
                up: None,
                ..
            } => Some(Dir::Down),
            _ => None,
        }
    }
}
