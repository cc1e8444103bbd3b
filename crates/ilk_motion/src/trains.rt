ghost use Rattle.std.specs.Prelude.{◌≡◌, position};
ghost use Rattle.ilk_motion.specs.Body.{is_only_section, has_head_at, occupies_only, is_last_section, is_first_of_several, has_movable_tail_at};

use ilk_plant::{Row, Train};

fn is_last(body: &Row<u32>, x: u32) -> bool
    ensures { result ≡ is_last_section x body.now }
{
    match body.as_slice() {
        [.., head] => *head == x,
        [] => false,
    }
}

fn is_first_of_several(body: &Row<u32>, x: u32) -> bool
    ensures { result ≡ is_first_of_several x body.now }
{
    match body.as_slice() {
        [tail, _, ..] => *tail == x,
        _ => false,
    }
}

fn is_only(body: &Row<u32>, x: u32) -> bool
    ensures { result ≡ is_only_section x body.now }
{
    match body.as_slice() {
        [only] => *only == x,
        _ => false,
    }
}

/// Returns the index of the first train whose head is at section `x`, or `None` if there is none.
pub(crate) fn find_train_with_head(trains: &Row<Train>, x: u32) -> Option<usize>
    ensures { result ≡ position (has_head_at x) trains.now }
{
    trains
        .as_slice()
        .iter()
        .position(|train| is_last(&train.body, x))
}

/// Returns the index of the first train of two or more sections whose tail is at section `x`, or
/// `None` if there is none.
pub(crate) fn find_train_with_movable_tail(trains: &Row<Train>, x: u32) -> Option<usize>
    ensures { result ≡ position (has_movable_tail_at x) trains.now }
{
    trains
        .as_slice()
        .iter()
        .position(|train| is_first_of_several(&train.body, x))
}

/// Returns the index of the first train whose only section is `x`, or `None` if there is none.
pub(crate) fn find_train_only_on(trains: &Row<Train>, x: u32) -> Option<usize>
    ensures { result ≡ position (occupies_only x) trains.now }
{
    trains
        .as_slice()
        .iter()
        .position(|train| is_only(&train.body, x))
}
