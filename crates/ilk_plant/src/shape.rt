ghost use Rattle.std.specs.Prelude.{◌≡◌, ◌↔◌, IsTrue, zip};
ghost use Rattle.std.specs.List.{list_all};
ghost use Rattle.ilk_plant.specs.Network.{contains_section};
ghost use Rattle.ilk_plant.specs.Plant.{next_to};
ghost use Rattle.ilk_plant.specs.Shape.{has_nonempty_connected_body, is_connected_chain, seen_and_released_fit_path, HasShape};
ghost use Rattle.ilk_plant.specs.Lengths.{HasLengthsOfPlant};

use crate::{Dir, Plant, Route, RouteState, State, Train};

fn fits_path(route: &Route, now: &RouteState) -> bool
    ensures { result ≡ seen_and_released_fit_path route.now now.now }
{
    let path = route.path.len();
    now.seen as u64 <= path && now.rel as u64 <= path
}

impl Plant {
    // Returns whether section `y` is next to `x` in direction `d`.
    fn is_next(&self, x: u32, d: Dir, y: u32) -> bool
        ensures { result ≡ contains_section y (next_to self.now x d) }
    {
        if x >= self.sections() {
            return false;
        }
        self.neighbour(x, d, 0) == Some(y) || self.neighbour(x, d, 1) == Some(y)
    }

    /// Returns whether each section of `rest` is a neighbour, on side `d`, of the one before it;
    /// the first one is a neighbour of `first`. A number that is not a section has no neighbour.
    pub fn is_connected_chain(&self, d: Dir, first: u32, rest: &[u32]) -> bool
        ensures { result ≡ is_connected_chain self.now d first rest.now }
    {
        let mut x = first;
        for y in rest {
            if !self.is_next(x, d, *y) {
                return false;
            }
            x = *y;
        }
        true
    }

    /// Returns whether the body of `train` is not empty, begins at a section, and goes on from
    /// neighbour to neighbour in the train's direction.
    pub fn has_nonempty_connected_body(&self, train: &Train) -> bool
        ensures { result ≡ has_nonempty_connected_body self.now train.now }
    {
        match train.body.as_slice() {
            [] => false,
            [first, rest @ ..] => *first < self.sections()
                && self.is_connected_chain(train.dir, *first, rest),
        }
    }

    fn counts_fit(&self, s: &State) -> bool
        ensures { result
            ≡ list_all (λ pair. seen_and_released_fit_path pair.0 pair.1)
            (zip self.now.routes s.now.routes) }
    {
        self.routes_as_slice()
            .iter()
            .zip(s.routes.as_slice())
            .all(|(route, now)| fits_path(route, now))
    }

    fn has_bodies(&self, s: &State) -> bool
        ensures { result ≡ list_all (has_nonempty_connected_body self.now) s.now.trains }
    {
        s.trains
            .as_slice()
            .iter()
            .all(|train| self.has_nonempty_connected_body(train))
    }

    fn has_lengths(&self, s: &State) -> bool
        ensures { IsTrue result ↔ HasLengthsOfPlant self.now s.now }
    {
        s.routes.len() == self.routes() as u64
            && s.points.len() == self.points() as u64
            && s.boards.len() == self.boards() as u64
            && s.locks.len() == self.sections() as u64
    }

    /// Returns whether the state `s` is well-formed for the plant:
    ///
    /// - Its lists have the plant's lengths.
    /// - No route has more path sections seen or released than its path has.
    /// - Each train's body is not empty and begins at a section. Each further section is next to
    ///   the one before in the train's direction.
    pub fn has_shape(&self, s: &State) -> bool
        ensures { IsTrue result ↔ HasShape self.now s.now }
    {
        if !self.has_lengths(s) {
            return false;
        }
        if !self.counts_fit(s) {
            return false;
        }
        self.has_bodies(s)
    }
}
