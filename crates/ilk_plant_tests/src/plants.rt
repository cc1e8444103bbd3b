ghost use Rattle.std.specs.Prelude.{◌≡◌, IfOk, [], IsTrue};
ghost use Rattle.ilk_plant.specs.Limits.{WithinLimits};
ghost use Rattle.ilk_strict.specs.IsStrict.{IsStrict};

use ilk_ir::Values;
use ilk_layout::image;
use ilk_model::{Event, apply};
use ilk_net_check::check_network;
use ilk_plant::{Broken, NetDraft, Plant, Row, State, TableDraft};
use ilk_strict::clean_is_strict;
use ilk_table_check::{check_columns, check_table};
use ilk_table_read::read_net_and_table_drafts;
use std::alloc::Global;
use std::test::Fail;

fn is_clean(broken: &Row<Broken>) -> bool
    ensures { IsTrue result → broken.now ≡ [] }
{
    match broken.as_slice() {
        [] => true,
        _ => false,
    }
}

fn plant_of_drafts(alloc: Global, net: &NetDraft, table: &TableDraft) -> Result<Plant, Fail>
    requires { WithinLimits net.now table.now }
{
    let network = check_network(alloc, net)?;
    let routes = check_table(alloc, net, table)?;
    if is_clean(&network) && is_clean(&routes) {
        Ok(Plant::make(alloc, net, table)?)
    } else {
        Err(Fail::new("a rule is broken"))
    }
}

/// Returns the plant of the configuration `text`; fails if it breaks a rule other than a column
/// rule.
pub(crate) fn plant_from_configuration(alloc: Global, text: &str) -> Result<Plant, Fail> {
    match read_net_and_table_drafts(alloc, text.as_bytes()) {
        Ok((net, table)) => plant_of_drafts(alloc, &net, &table),
        Err(_) => Err(Fail::new("the form is broken")),
    }
}

/// Returns the plant of the configuration `text`; fails if it breaks a rule, column rules included.
pub(crate) fn strict_plant_from_configuration(alloc: Global, text: &str) -> Result<Plant, Fail>
    ensures { IfOk result IsStrict }
{
    let plant = plant_from_configuration(alloc, text)?;
    let columns = check_columns(alloc, &plant)?;
    if is_clean(&columns) {
        clean_is_strict(&plant);
        Ok(plant)
    } else {
        Err(Fail::new("a rule of the columns is broken"))
    }
}

/// Returns the image of state `s`: the values of the plant's variables.
pub(crate) fn image_of(alloc: Global, plant: &Plant, s: &State) -> Result<Values, Fail> {
    if !plant.has_shape(s) {
        return Err(Fail::new("a state without shape"));
    }
    Ok(image(alloc, plant, s)?)
}

/// Returns the state after an event in state `s`, or `None` if the event is not enabled.
pub(crate) fn state_after_event(
    alloc: Global,
    plant: &Plant,
    s: &State,
    event: Event,
) -> Result<Option<State>, Fail> {
    if !plant.has_shape(s) {
        return Err(Fail::new("a state without shape"));
    }
    let mut next = s.copy()?;
    if apply(alloc, plant, &mut next, event)? {
        Ok(Some(next))
    } else {
        Ok(None)
    }
}

/// Returns the event of a kind, numbered from 0, for the route or section `number`.
pub(crate) fn event(kind: u32, number: u32) -> Event {
    match kind {
        0 => Event::Mark(number),
        1 => Event::Allocate(number),
        2 => Event::Lock(number),
        3 => Event::Sense(number),
        4 => Event::Release(number),
        5 => Event::Finish(number),
        6 => Event::Throw(number),
        7 => Event::Settle(number),
        8 => Event::Enter(number),
        9 => Event::Head(number),
        10 => Event::Tail(number),
        11 => Event::Leave(number),
        _ => Event::Cancel(number),
    }
}

/// Returns all events of all kinds, for each number of a route or section, and for one number that
/// names nothing.
pub(crate) fn events(alloc: Global, plant: &Plant) -> Result<Vec<Event>, Fail> {
    let mut all = Vec::new(alloc);
    for kind in 0..13 {
        for number in 0..=plant.routes().max(plant.sections()) {
            all.push(event(kind, number))?;
        }
    }
    Ok(all)
}
