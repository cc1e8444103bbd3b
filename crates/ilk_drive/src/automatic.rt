ghost use Rattle.std.specs.Prelude.{ℕ, ◌≡◌, ◌++◌, ◌<◌, ◌^◌, true, IfOk, OnOk, length, map};
ghost use Rattle.std.specs.List.{range_with_len};
ghost use Rattle.ilk_model.specs.declared.event.Event.{Event};
ghost use Rattle.ilk_drive.specs.Drive.{automatic_events};
ghost use Rattle.ilk_drive.specs.Places.{IsAutomaticEnablingGraphOf, ListsIndicesEachEventMayEnable};
ghost use Rattle.ilk_base.specs.Numbers.{has_number};

use crate::candidates::Candidates;
use crate::waking::indices_enabled_by;
use ilk_model::Event;
use ilk_plant::{Plant, Row};
use std::alloc::{AllocError, Global};

fn push_numbers<F: Fn(u32) -> Event>(
    events: &mut Row<Event>,
    count: u32,
    event: F,
) -> Result<(), AllocError>
    requires { F.IsAlwaysCallable event }
    ensures { (of : ℕ → Event) →
        ((x : ℕ) (e : Event) → x < 2 ^ 32 → F.post event x e → e ≡ of x) →
        OnOk result (events.new ≡ events.old ++ map of (range_with_len 0 count)) }
{
    for x in 0..count {
        events.push(event(x))?;
    }
    Ok(())
}

fn automatic_events(alloc: Global, plant: &Plant) -> Result<Row<Event>, AllocError>
    ensures { IfOk result (λ events. events ≡ automatic_events plant.now) }
{
    let routes = plant.routes();
    let sections = plant.sections();
    let mut events = Row::new(alloc);
    push_numbers(&mut events, routes, |r| Event::Allocate(r))?;
    push_numbers(&mut events, routes, |r| Event::Lock(r))?;
    push_numbers(&mut events, routes, |r| Event::Sense(r))?;
    push_numbers(&mut events, routes, |r| Event::Release(r))?;
    push_numbers(&mut events, routes, |r| Event::Finish(r))?;
    push_numbers(&mut events, sections, |x| Event::Throw(x))?;
    push_numbers(&mut events, sections, |x| Event::Settle(x))?;
    push_numbers(&mut events, sections, |x| Event::Head(x))?;
    push_numbers(&mut events, sections, |x| Event::Tail(x))?;
    push_numbers(&mut events, sections, |x| Event::Leave(x))?;
    Ok(events)
}

/// The automatic events of a plant in order, and for each of them the indices of those that it may
/// enable.
#[derive(Drop)]
pub(crate) struct Automatic {
    pub(crate) events: Row<Event>,
    pub(crate) woken: Row<Row<u64>>,
}

fn woken_by_each(
    alloc: Global,
    plant: &Plant,
    events: &Row<Event>,
) -> Result<Row<Row<u64>>, AllocError>
    requires { events.now ≡ automatic_events plant.now }
    ensures long { IfOk result (λ woken. length woken ≡ length events.now) }
    ensures woken { IfOk result
        (λ woken. ListsIndicesEachEventMayEnable plant.now events.now woken) }
{
    let mut woken = Row::new(alloc);
    for event in events.as_slice() {
        woken.push(indices_enabled_by(alloc, plant, events, *event)?)?;
    }
    Ok(woken)
}

impl Automatic {
    /// Creates the automatic events of a plant.
    pub(crate) fn of(alloc: Global, plant: &Plant) -> Result<Automatic, AllocError>
        ensures { IfOk result (IsAutomaticEnablingGraphOf plant.now) }
    {
        let events = automatic_events(alloc, plant)?;
        let woken = woken_by_each(alloc, plant, &events)?;
        Ok(Automatic { events, woken })
    }

    pub(crate) fn all_places(&self, alloc: Global) -> Result<Candidates, AllocError>
        ensures { IfOk result
            (λ candidates. (j : ℕ) → j < length self.now.events → has_number j candidates ≡ true) }
    {
        let mut candidates = Candidates::new(alloc);
        for place in 0..self.events.len() {
            candidates.push(place)?;
        }
        Ok(candidates)
    }
}
