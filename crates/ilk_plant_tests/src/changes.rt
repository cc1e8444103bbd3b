use ilk_model::start;
use ilk_plant::{
    Aspect, Dir, Hold, Lie, Mode, Plant, PointState, Position, RouteState, Row, State, Train,
};
use std::alloc::{AllocError, Global};

/// A change to the initial state.
#[derive(Clone, Copy)]
pub(crate) enum Change {
    /// A route's mode, and how many of its path sections are seen and released.
    Route(u64, Mode, u32, u32),
    /// A point, its detected position and its commanded position.
    Point(u64, Lie, Position),
    /// A board that is open.
    Open(u64),
    /// The locks of sections.
    Locks(Hold, &'static [u64]),
    /// A train, from tail to head.
    Train(Dir, &'static [u32]),
}

fn write<T: Copy>(row: &mut Row<T>, i: u64, item: T) {
    if i < row.len() {
        *row.at_mut(i) = item;
    }
}

fn write_locks(locks: &mut Row<Hold>, hold: Hold, sections: &[u64]) {
    for x in sections {
        write(locks, *x, hold);
    }
}

fn train(alloc: Global, dir: Dir, sections: &[u32]) -> Result<Train, AllocError> {
    let mut body = Row::new(alloc);
    for x in sections {
        body.push(*x)?;
    }
    Ok(Train { dir, body })
}

fn make_change(alloc: Global, s: &mut State, change: Change) -> Result<(), AllocError> {
    match change {
        Change::Route(r, mode, seen, rel) => write(
            &mut s.routes,
            r,
            RouteState { mode, seen, rel },
        ),
        Change::Point(n, at, to) => write(&mut s.points, n, PointState { at, to }),
        Change::Open(m) => write(&mut s.boards, m, Aspect::Open),
        Change::Locks(hold, sections) => write_locks(&mut s.locks, hold, sections),
        Change::Train(dir, sections) => s.trains.push(train(alloc, dir, sections)?)?,
    }
    Ok(())
}

/// Returns the initial state of `plant` with these `changes`.
pub(crate) fn start_with_changes(
    alloc: Global,
    plant: &Plant,
    changes: &[Change],
) -> Result<State, AllocError> {
    let mut s = start(alloc, plant)?;
    for each in changes {
        make_change(alloc, &mut s, *each)?;
    }
    Ok(s)
}
