ghost use Rattle.std.specs.Prelude.{◌≡◌};
ghost use Rattle.ilk_plant.specs.State.{has_lock_state, is_unlocked_and_vacant};

use crate::{Hold, State, occupied};

/// Returns whether the lock of section `x` is `hold`, or `false` if `x` is not a section.
pub fn has_lock_state(s: &State, x: u32, hold: Hold) -> bool
    ensures { result ≡ has_lock_state s.now x hold }
{
    match s.locks.as_slice().get(x as usize) {
        Some(lock) => *lock == hold,
        None => false,
    }
}

/// Returns whether the lock of section `x` is Free and no train occupies it.
pub fn is_unlocked_and_vacant(s: &State, x: u32) -> bool
    ensures { result ≡ is_unlocked_and_vacant s.now x }
{
    has_lock_state(s, x, Hold::Free) && !occupied(s, x)
}
