//! The automatic events that an event may enable. A drive needn't try the others again after it.
ghost use Rattle.std.specs.Prelude.{◌≡◌, IfOk};
ghost use Rattle.ilk_model.specs.declared.event.Event.TheVariants.{Mark, Allocate, Lock, Sense, Release, Finish, Throw, Settle, Enter, Head, Tail, Leave, Cancel};
ghost use Rattle.ilk_drive.specs.Drive.{automatic_events};
ghost use Rattle.ilk_drive.specs.Places.{ContainsIndicesEventMayEnable};
ghost use Rattle.ilk_drive.specs.Awakening.{is_source_board_on_section, numbered_route_has_element_on, route_may_affect_by_number, may_enable_automatic, requires_point};

use crate::concerns::{
    depends_on_neighbour, is_neighbour, is_source_board_on_section, numbered_route_has_element_on,
    requires_point, route_may_affect_by_number,
};
use ilk_model::Event;
use ilk_plant::{Plant, Row};
use std::alloc::{AllocError, Global};

fn allocate_may_enable(plant: &Plant, r: u32, other: Event) -> bool
    ensures { result ≡ may_enable_automatic plant.now (Allocate r) other }
{
    match other {
        Event::Lock(q) => q == r,
        Event::Throw(x) => requires_point(plant, r, x),
        _ => false,
    }
}

fn lock_may_enable(plant: &Plant, r: u32, other: Event) -> bool
    ensures { result ≡ may_enable_automatic plant.now (Lock r) other }
{
    match other {
        Event::Sense(q) => q == r,
        Event::Head(x) => is_source_board_on_section(plant, r, x),
        _ => false,
    }
}

fn sense_may_enable(plant: &Plant, r: u32, other: Event) -> bool
    ensures { result ≡ may_enable_automatic plant.now (Sense r) other }
{
    match other {
        Event::Allocate(q) => route_may_affect_by_number(plant, r, q),
        Event::Lock(q) => route_may_affect_by_number(plant, r, q),
        Event::Sense(q) => q == r,
        Event::Release(q) => q == r,
        Event::Finish(q) => q == r,
        _ => false,
    }
}

fn release_may_enable(plant: &Plant, r: u32, other: Event) -> bool
    ensures { result ≡ may_enable_automatic plant.now (Release r) other }
{
    match other {
        Event::Allocate(q) => route_may_affect_by_number(plant, r, q),
        Event::Sense(q) => q == r,
        Event::Release(q) => q == r,
        Event::Finish(q) => q == r,
        _ => false,
    }
}

fn throw_may_enable(plant: &Plant, x: u32, other: Event) -> bool
    ensures { result ≡ may_enable_automatic plant.now (Throw x) other }
{
    match other {
        Event::Throw(y) => y == x,
        Event::Settle(y) => y == x,
        Event::Head(y) => y == x,
        _ => false,
    }
}

fn settle_may_enable(plant: &Plant, x: u32, other: Event) -> bool
    ensures { result ≡ may_enable_automatic plant.now (Settle x) other }
{
    match other {
        Event::Lock(q) => numbered_route_has_element_on(plant, x, q),
        Event::Throw(y) => y == x,
        Event::Settle(y) => y == x,
        Event::Head(y) => y == x,
        _ => false,
    }
}

fn enter_may_enable(plant: &Plant, x: u32, other: Event) -> bool
    ensures { result ≡ may_enable_automatic plant.now (Enter x) other }
{
    match other {
        Event::Sense(q) => numbered_route_has_element_on(plant, x, q),
        Event::Head(y) => y == x,
        Event::Leave(y) => y == x,
        _ => false,
    }
}

fn head_may_enable(plant: &Plant, x: u32, other: Event) -> bool
    ensures { result ≡ may_enable_automatic plant.now (Head x) other }
{
    match other {
        Event::Lock(q) => numbered_route_has_element_on(plant, x, q),
        Event::Sense(q) => depends_on_neighbour(plant, x, q),
        Event::Head(y) => y == x || is_neighbour(plant, x, y),
        Event::Tail(y) => y == x,
        Event::Leave(y) => y == x,
        _ => false,
    }
}

fn tail_may_enable(plant: &Plant, x: u32, other: Event) -> bool
    ensures { result ≡ may_enable_automatic plant.now (Tail x) other }
{
    match other {
        Event::Allocate(q) => numbered_route_has_element_on(plant, x, q),
        Event::Release(q) => numbered_route_has_element_on(plant, x, q),
        Event::Tail(y) => y == x || is_neighbour(plant, x, y),
        Event::Leave(y) => is_neighbour(plant, x, y),
        _ => false,
    }
}

fn leave_may_enable(plant: &Plant, x: u32, other: Event) -> bool
    ensures { result ≡ may_enable_automatic plant.now (Leave x) other }
{
    match other {
        Event::Allocate(q) => numbered_route_has_element_on(plant, x, q),
        Event::Release(q) => numbered_route_has_element_on(plant, x, q),
        Event::Head(y) => y == x,
        Event::Leave(y) => y == x,
        _ => false,
    }
}

fn finish_may_enable(plant: &Plant, r: u32, other: Event) -> bool
    ensures { result ≡ may_enable_automatic plant.now (Finish r) other }
{
    match other {
        Event::Allocate(q) => route_may_affect_by_number(plant, r, q),
        _ => false,
    }
}

fn cancel_may_enable(plant: &Plant, r: u32, other: Event) -> bool
    ensures { result ≡ may_enable_automatic plant.now (Cancel r) other }
{
    match other {
        Event::Allocate(q) => route_may_affect_by_number(plant, r, q),
        _ => false,
    }
}

fn mark_may_enable(plant: &Plant, r: u32, other: Event) -> bool
    ensures { result ≡ may_enable_automatic plant.now (Mark r) other }
{
    let _ = plant;
    match other {
        Event::Allocate(q) => q == r,
        _ => false,
    }
}

fn may_enable_automatic(plant: &Plant, event: Event, other: Event) -> bool
    ensures { result ≡ may_enable_automatic plant.now event other }
{
    match event {
        Event::Mark(r) => mark_may_enable(plant, r, other),
        Event::Allocate(r) => allocate_may_enable(plant, r, other),
        Event::Lock(r) => lock_may_enable(plant, r, other),
        Event::Sense(r) => sense_may_enable(plant, r, other),
        Event::Release(r) => release_may_enable(plant, r, other),
        Event::Finish(r) => finish_may_enable(plant, r, other),
        Event::Throw(x) => throw_may_enable(plant, x, other),
        Event::Settle(x) => settle_may_enable(plant, x, other),
        Event::Enter(x) => enter_may_enable(plant, x, other),
        Event::Head(x) => head_may_enable(plant, x, other),
        Event::Tail(x) => tail_may_enable(plant, x, other),
        Event::Leave(x) => leave_may_enable(plant, x, other),
        Event::Cancel(r) => cancel_may_enable(plant, r, other),
    }
}

/// Returns the indices of the automatic events that `event` may enable.
pub(crate) fn indices_enabled_by(
    alloc: Global,
    plant: &Plant,
    automatic: &Row<Event>,
    event: Event,
) -> Result<Row<u64>, AllocError>
    requires { automatic.now ≡ automatic_events plant.now }
    ensures { IfOk result (ContainsIndicesEventMayEnable plant.now event) }
{
    let mut places = Row::new(alloc);
    for (place, other) in automatic.as_slice().iter().enumerate() {
        places.push_if(may_enable_automatic(plant, event, *other), place as u64)?;
    }
    Ok(places)
}
