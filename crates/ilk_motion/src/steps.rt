ghost use Rattle.std.specs.Prelude.{◌≡◌, ◌<◌, IfOk, IfSome, OnOk, OnErr, is_some, length, unwrap_or};
ghost use Rattle.ilk_plant.specs.Shape.{HasShape};
ghost use Rattle.ilk_motion.specs.Body.{without_tail};
ghost use Rattle.ilk_motion.specs.Trains.{after_enter, after_head, after_leave, after_tail, with_board_closed, may_pass_board};

use crate::ahead;
use crate::trains::{find_train_only_on, find_train_with_head, find_train_with_movable_tail};
use ilk_plant::{Aspect, Plant, Row, State, Train, is_unlocked_and_vacant};
use std::alloc::{AllocError, Global};

fn enter(alloc: Global, plant: &Plant, s: &mut State, x: u32) -> Result<bool, AllocError>
    requires { HasShape plant.now s.old }
    ensures answer { IfOk result (λ b. b ≡ is_some (after_enter plant.now s.old x)) }
    ensures next { OnOk result (s.new ≡ unwrap_or (after_enter plant.now s.old x) s.old) }
    ensures err { OnErr result (s.new ≡ s.old) }
{
    if x >= plant.sections() {
        return Ok(false);
    }
    let Some(dir) = plant.inward_direction_if_border(x) else {
        return Ok(false);
    };
    if !is_unlocked_and_vacant(s, x) {
        return Ok(false);
    }
    let mut body = Row::new(alloc);
    body.push(x)?;
    s.trains.push(Train { dir, body })?;
    Ok(true)
}

fn may_pass_board(s: &State, board: Option<u32>) -> bool
    ensures { result ≡ may_pass_board s.now board }
{
    match board {
        None => true,
        Some(m) => s.boards.as_slice().get(m as usize) == Some(&Aspect::Open),
    }
}

fn close(s: &mut State, board: Option<u32>)
    requires { IfSome board (λ m. m < length s.old.boards) }
    ensures { s.new ≡ with_board_closed board s.old }
{
    if let Some(m) = board {
        *s.boards.at_mut(m as u64) = Aspect::Closed;
    }
}

#[tactic(auto, using(ilk_base::proofs::Lists::set_same))]
fn move_head(plant: &Plant, s: &mut State, x: u32) -> Result<bool, AllocError>
    requires { HasShape plant.now s.old }
    ensures answer { IfOk result (λ b. b ≡ is_some (after_head plant.now s.old x)) }
    ensures next { OnOk result (s.new ≡ unwrap_or (after_head plant.now s.old x) s.old) }
    ensures err { OnErr result (s.new ≡ s.old) }
{
    let Some(i) = find_train_with_head(&s.trains, x) else {
        return Ok(false);
    };
    let dir = s.trains.at(i as u64).dir;
    let Some(y) = ahead(plant, s, x, dir) else {
        return Ok(false);
    };
    let board = plant.board_of(x, dir);
    if !may_pass_board(s, board) {
        return Ok(false);
    }
    s.trains.at_mut(i as u64).body.push(y)?;
    close(s, board);
    Ok(true)
}

fn leave_first(train: &mut Train)
    requires { 0 < length train.old.body }
    ensures { train.new ≡ without_tail train.old }
{
    train.body.remove(0);
}

fn move_tail(plant: &Plant, s: &mut State, x: u32) -> bool
    ensures answer { result ≡ is_some (after_tail plant.now s.old x) }
    ensures next { s.new ≡ unwrap_or (after_tail plant.now s.old x) s.old }
{
    if x >= plant.sections() {
        return false;
    }
    let Some(i) = find_train_with_movable_tail(&s.trains, x) else {
        return false;
    };
    leave_first(s.trains.at_mut(i as u64));
    true
}

fn leave(plant: &Plant, s: &mut State, x: u32) -> bool
    ensures answer { result ≡ is_some (after_leave plant.now s.old x) }
    ensures next { s.new ≡ unwrap_or (after_leave plant.now s.old x) s.old }
{
    if x >= plant.sections() {
        return false;
    }
    let Some(i) = find_train_only_on(&s.trains, x) else {
        return false;
    };
    let dir = s.trains.at(i as u64).dir;
    if plant.neighbour(x, dir, 0).is_some() {
        return false;
    }
    let _train = s.trains.remove(i as u64);
    true
}

/// Lets a train enter at section `x`, in its inward direction, and adds it at the end of the list
/// of trains. Returns `true` if and only if `x` is a border, vacant and with lock Free. Otherwise,
/// or if memory runs out, nothing changes.
pub fn step_enter(alloc: Global, plant: &Plant, s: &mut State, x: u32) -> Result<bool, AllocError>
    requires { HasShape plant.now s.old }
    ensures answer { IfOk result (λ b. b ≡ is_some (after_enter plant.now s.old x)) }
    ensures next { OnOk result (s.new ≡ unwrap_or (after_enter plant.now s.old x) s.old) }
    ensures err { OnErr result (s.new ≡ s.old) }
    ensures shape { HasShape plant.now s.new }
{
    enter(alloc, plant, s, x)
}

/// Moves the head of the first train with its head at section `x` to the section ahead, and closes
/// the board that it passes. Returns `true` if and only if there is such a train, a section is
/// ahead of it, and `x` has no board in its direction or that board is open. Otherwise, or if
/// memory runs out, nothing changes.
pub fn step_head(_alloc: Global, plant: &Plant, s: &mut State, x: u32) -> Result<bool, AllocError>
    requires { HasShape plant.now s.old }
    ensures answer { IfOk result (λ b. b ≡ is_some (after_head plant.now s.old x)) }
    ensures next { OnOk result (s.new ≡ unwrap_or (after_head plant.now s.old x) s.old) }
    ensures err { OnErr result (s.new ≡ s.old) }
    ensures shape { HasShape plant.now s.new }
{
    move_head(plant, s, x)
}

/// Takes section `x` from the first train of two or more sections with its tail at `x`. Returns
/// `true` if and only if there is such a train. Otherwise nothing changes.
pub fn step_tail(plant: &Plant, s: &mut State, x: u32) -> bool
    requires { HasShape plant.now s.old }
    ensures answer { result ≡ is_some (after_tail plant.now s.old x) }
    ensures next { s.new ≡ unwrap_or (after_tail plant.now s.old x) s.old }
    ensures shape { HasShape plant.now s.new }
{
    plant.prove_is_plant();
    move_tail(plant, s, x)
}

/// Removes the first train whose only section is `x` from the network; the others keep their order.
/// Returns `true` if and only if there is such a train and `x` has no neighbour in its direction.
/// Otherwise nothing changes.
pub fn step_leave(plant: &Plant, s: &mut State, x: u32) -> bool
    requires { HasShape plant.now s.old }
    ensures answer { result ≡ is_some (after_leave plant.now s.old x) }
    ensures next { s.new ≡ unwrap_or (after_leave plant.now s.old x) s.old }
    ensures shape { HasShape plant.now s.new }
{
    leave(plant, s, x)
}
