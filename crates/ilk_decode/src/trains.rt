ghost use Rattle.std.specs.Prelude.{◌≡◌, ◌∷◌, ◌++◌, IfOk, OnOk, length, option_to_list};
ghost use Rattle.ilk_layout.specs.Decoded.{iterates_until_none};
ghost use Rattle.ilk_decode.specs.Read.{next_in_body, direction_of_train_with_tail, train_with_tail, trains_by_tails};

use ilk_base::Row;
use ilk_layout::Occupancy;
use ilk_motion::ahead;
use ilk_plant::{Dir, Plant, State, Train};
use std::alloc::{AllocError, Global};

// Returns the next section towards the head, in the body of the train on `x`. Returns `None` if the
// head is at `x`, or no train is.
fn next_in_body(plant: &Plant, s: &State, occupancies: &[Occupancy], x: u32) -> Option<u32>
    ensures { result ≡ next_in_body plant.now s.now occupancies.now x }
{
    match occupancies.get(x as usize) {
        Some(
            Occupancy::Taken {
                dir,
                head: false,
                ..
            },
        ) => ahead(plant, s, x, *dir),
        _ => None,
    }
}

// Returns the body of the train with its tail at `tail`, from there to its head.
fn body_from(
    alloc: Global,
    plant: &Plant,
    s: &State,
    occupancies: &[Occupancy],
    tail: u32,
) -> Result<Row<u32>, AllocError>
    ensures { IfOk result
        (λ body. body
        ≡ tail
        ∷ iterates_until_none (length plant.now.sections)
        (next_in_body plant.now s.now occupancies.now) tail) }
{
    let mut body = Row::new(alloc);
    body.push(tail)?;
    let mut x = tail;
    for step in 0..plant.sections() {
        match next_in_body(plant, s, occupancies, x) {
            None => return Ok(body),
            Some(next) => {
                body.push(next)?;
                x = next;
            }
        }
    }
    Ok(body)
}

fn direction_of_train_with_tail(occupancies: &[Occupancy], x: u32) -> Option<Dir>
    ensures { result ≡ direction_of_train_with_tail occupancies.now x }
{
    match occupancies.get(x as usize) {
        Some(
            Occupancy::Taken {
                dir,
                tail: true,
                ..
            },
        ) => Some(*dir),
        _ => None,
    }
}

// Adds the train with its tail at `x`, if there is one.
fn push_train(
    alloc: Global,
    plant: &Plant,
    s: &State,
    occupancies: &[Occupancy],
    trains: &mut Row<Train>,
    x: u32,
) -> Result<(), AllocError>
    ensures { OnOk result
        (trains.new
        ≡ trains.old ++ option_to_list (train_with_tail plant.now s.now occupancies.now x)) }
{
    match direction_of_train_with_tail(occupancies, x) {
        None => Ok(()),
        Some(dir) => {
            let body = body_from(alloc, plant, s, occupancies, x)?;
            trains.push(Train { dir, body })?;
            Ok(())
        }
    }
}

/// Returns the trains in the order of their tails, from the points of `s` and these occupancies.
pub(crate) fn trains_by_tails(
    alloc: Global,
    plant: &Plant,
    s: &State,
    occupancies: &[Occupancy],
) -> Result<Row<Train>, AllocError>
    ensures { IfOk result (λ trains. trains ≡ trains_by_tails plant.now s.now occupancies.now) }
{
    let mut trains = Row::new(alloc);
    for x in 0..plant.sections() {
        push_train(alloc, plant, s, occupancies, &mut trains, x)?;
    }
    Ok(trains)
}
