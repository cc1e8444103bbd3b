ghost use Rattle.std.specs.Prelude.{◌≡◌, IfOk, OnOk, OnErr, is_some, unwrap_or};
ghost use Rattle.ilk_plant.specs.Shape.{HasShape};
ghost use Rattle.ilk_model.specs.Event.{next};

use ilk_motion::{step_enter, step_head, step_leave, step_tail};
use ilk_plant::{Plant, State};
use ilk_routes::{
    step_allocate, step_cancel, step_finish, step_lock, step_mark, step_release, step_sense,
    step_settle, step_throw,
};
use std::alloc::{AllocError, Global};

/// An event with its number: that of the route (mark to finish, and cancel), of the point's section
/// (throw and settle), or of the section (enter to leave).
#[derive(Clone, Copy, PartialEq, Eq, Debug)]
pub enum Event {
    Mark(u32),
    Allocate(u32),
    Lock(u32),
    Sense(u32),
    Release(u32),
    Finish(u32),
    Throw(u32),
    Settle(u32),
    Enter(u32),
    Head(u32),
    Tail(u32),
    Leave(u32),
    Cancel(u32),
}

/// Applies event `e` to state `s` if it is enabled, and returns whether it is. If not, or if memory
/// runs out, the state doesn't change.
pub fn apply(alloc: Global, plant: &Plant, s: &mut State, e: Event) -> Result<bool, AllocError>
    requires { HasShape plant.now s.old }
    ensures answer { IfOk result (λ enabled. enabled ≡ is_some (next plant.now s.old e)) }
    ensures next { OnOk result (s.new ≡ unwrap_or (next plant.now s.old e) s.old) }
    ensures err { OnErr result (s.new ≡ s.old) }
    ensures shape { HasShape plant.now s.new }
{
    match e {
        Event::Mark(r) => Ok(step_mark(plant, s, r)),
        Event::Allocate(r) => Ok(step_allocate(plant, s, r)),
        Event::Lock(r) => Ok(step_lock(plant, s, r)),
        Event::Sense(r) => Ok(step_sense(plant, s, r)),
        Event::Release(r) => Ok(step_release(plant, s, r)),
        Event::Finish(r) => Ok(step_finish(plant, s, r)),
        Event::Throw(x) => Ok(step_throw(plant, s, x)),
        Event::Settle(x) => Ok(step_settle(plant, s, x)),
        Event::Enter(x) => step_enter(alloc, plant, s, x),
        Event::Head(x) => step_head(alloc, plant, s, x),
        Event::Tail(x) => Ok(step_tail(plant, s, x)),
        Event::Leave(x) => Ok(step_leave(plant, s, x)),
        Event::Cancel(r) => Ok(step_cancel(plant, s, r)),
    }
}
