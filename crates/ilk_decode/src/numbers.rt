ghost use Rattle.std.specs.Prelude.{◌≡◌, get_or};
ghost use Rattle.ilk_decode.specs.Numbered as numbered;

use ilk_layout::Occupancy;
use ilk_plant::{Aspect, Dir, Hold, Lie, Mode, Position};

// Returns the value of `variable`, or 0 if it does not exist.
pub(crate) fn number_at(values: &[u8], variable: u64) -> u8
    ensures { result ≡ get_or values.now variable 0 }
{
    match values.get(variable as usize) {
        Some(number) => *number,
        None => 0,
    }
}

pub(crate) fn mode_from_number(number: u8) -> Mode
    ensures { result ≡ numbered.mode_from_number number }
{
    match number {
        0 => Mode::Free,
        1 => Mode::Marked,
        2 => Mode::Allocating,
        3 => Mode::Locked,
        _ => Mode::Occupied,
    }
}

pub(crate) fn lie_from_number(number: u8) -> Lie
    ensures { result ≡ numbered.lie_from_number number }
{
    match number {
        0 => Lie::Plus,
        1 => Lie::Minus,
        _ => Lie::Moving,
    }
}

pub(crate) fn position_from_number(number: u8) -> Position
    ensures { result ≡ numbered.position_from_number number }
{
    match number {
        0 => Position::Plus,
        _ => Position::Minus,
    }
}

pub(crate) fn aspect_from_number(number: u8) -> Aspect
    ensures { result ≡ numbered.aspect_from_number number }
{
    match number {
        0 => Aspect::Open,
        _ => Aspect::Closed,
    }
}

pub(crate) fn lock_state_from_number(number: u8) -> Hold
    ensures { result ≡ numbered.lock_state_from_number number }
{
    match number {
        0 => Hold::Free,
        1 => Hold::Locked,
        _ => Hold::Used,
    }
}

fn part_of_train(dir: Dir, tail: bool, head: bool) -> Occupancy
    ensures { result ≡ Occupancy.Taken dir tail head }
{
    Occupancy::Taken { dir, tail, head }
}

pub(crate) fn occupancy_from_number(number: u8) -> Occupancy
    ensures { result ≡ numbered.occupancy_from_number number }
{
    match number {
        0 => Occupancy::Vacant,
        1 => part_of_train(Dir::Up, false, false),
        2 => part_of_train(Dir::Up, false, true),
        3 => part_of_train(Dir::Up, true, false),
        4 => part_of_train(Dir::Up, true, true),
        5 => part_of_train(Dir::Down, false, false),
        6 => part_of_train(Dir::Down, false, true),
        7 => part_of_train(Dir::Down, true, false),
        8 => part_of_train(Dir::Down, true, true),
        _ => Occupancy::Crash,
    }
}
