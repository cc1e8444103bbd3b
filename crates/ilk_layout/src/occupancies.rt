ghost use Rattle.std.specs.Prelude.{◌≡◌, ◌<◌, ◌+◌, IsTrue, Some, length, map, replicate, slice_index, IfOk};
ghost use Rattle.std.specs.List.{range_with_len};
ghost use Rattle.ilk_plant.specs.Shape.{HasShape, has_nonempty_connected_body};
ghost use Rattle.ilk_layout.specs.Occupancy.{occupancy_or_crash};
ghost use Rattle.ilk_layout.specs.Standing.{AreOccupanciesAfterAdding, occupancy_after_adding_at_index, is_section_before_or_after, is_vacant_occupancy, is_point_wrong_between, section_before_index};

use crate::values::Occupancy;
use ilk_base::Row;
use ilk_plant::{Lie, Plant, Section, State, Train, detected_position_in_state};
use std::alloc::{AllocError, Global};

fn is_vacant(occupancy: Occupancy) -> bool
    ensures { result ≡ is_vacant_occupancy occupancy }
{
    occupancy == Occupancy::Vacant
}

fn is_section_before_or_after(y: u32, before: Option<u32>, after: Option<u32>) -> bool
    ensures { result ≡ is_section_before_or_after y before after }
{
    before == Some(y) || after == Some(y)
}

// Returns whether the point on `x` is wrong for a train with `before` and `after` next to `x` in
// its body.
fn is_point_wrong_between(
    plant: &Plant,
    s: &State,
    x: u32,
    before: Option<u32>,
    after: Option<u32>,
) -> bool
    requires { x < length plant.now.sections }
    ensures { result ≡ is_point_wrong_between plant.now s.now x before after }
{
    match *plant.section(x) {
        Section::Linear { .. } => false,
        Section::Point { plus, minus, .. } => match detected_position_in_state(plant, s, x) {
            None => false,
            Some(Lie::Plus) => is_section_before_or_after(minus, before, after),
            Some(Lie::Minus) => is_section_before_or_after(plus, before, after),
            Some(Lie::Moving) => true,
        },
    }
}

fn section_before_index(body: &[u32], i: usize) -> Option<u32>
    ensures { result ≡ section_before_index body.now i }
{
    if i == 0 {
        None
    } else {
        body.get(i - 1).copied()
    }
}

// Returns the occupancy of the section at index `i` of the train's body after the train is added,
// if it was `before`.
fn occupancy_after_adding_at_index(
    plant: &Plant,
    s: &State,
    train: &Train,
    i: usize,
    before: Occupancy,
) -> Occupancy
    requires within { i < length train.now.body }
    requires known { slice_index train.now.body i < length plant.now.sections }
    ensures { result
        ≡ occupancy_after_adding_at_index plant.now s.now train.now (slice_index train.now.body i)
        i before }
{
    let body = train.body.as_slice();
    let next = body.get(i + 1).copied();
    if is_vacant(before)
        && !is_point_wrong_between(plant, s, body[i], section_before_index(body, i), next)
    {
        Occupancy::Taken {
            dir: train.dir,
            tail: i == 0,
            head: i + 1 == body.len(),
        }
    } else {
        Occupancy::Crash
    }
}

// Adds one train to the occupancies of its sections.
fn put_train(plant: &Plant, s: &State, occupancies: &mut Row<Occupancy>, train: &Train)
    requires body { IsTrue (has_nonempty_connected_body plant.now train.now) }
    requires sections { length occupancies.old ≡ length plant.now.sections }
    ensures { AreOccupanciesAfterAdding plant.now s.now train.now train.now.body occupancies.old
        occupancies.new }
{
    plant.prove_is_plant();
    plant.prove_sound_acyclic_drafts();
    let body = train.body.as_slice();
    for i in 0..body.len() {
        let x = body[i] as u64;
        let before = *occupancies.at(x);
        *occupancies.at_mut(x) = occupancy_after_adding_at_index(plant, s, train, i, before);
    }
}

fn vacant(alloc: Global, count: u32) -> Result<Row<Occupancy>, AllocError>
    ensures { IfOk result (λ made. made ≡ replicate count Occupancy.Vacant) }
{
    let mut made = Row::new(alloc);
    for i in 0..count {
        made.push(Occupancy::Vacant)?;
    }
    Ok(made)
}

/// Returns the occupancies of all sections, in one pass over the trains. Fails only if memory runs
/// out.
pub(crate) fn occupancies(
    alloc: Global,
    plant: &Plant,
    s: &State,
) -> Result<Row<Occupancy>, AllocError>
    requires { HasShape plant.now s.now }
    ensures { IfOk result
        (λ made. made
        ≡ map (occupancy_or_crash plant.now s.now) (range_with_len 0 (length plant.now.sections))) }
{
    let mut made = vacant(alloc, plant.sections())?;
    for train in s.trains.as_slice() {
        put_train(plant, s, &mut made, train);
    }
    Ok(made)
}
