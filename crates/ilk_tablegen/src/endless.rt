ghost use Rattle.std.specs.Prelude.{◌≡◌, ◌<◌, ◌&&◌, IfOk, IfSome, false, length, map, not, slice_get, slice_index_or, true};
ghost use Rattle.std.specs.List.{range_with_len};
ghost use Rattle.ilk_base.specs.Option.{is_some_and};
ghost use Rattle.ilk_tablegen.specs.Rounds.{has_unended_path_from_each, has_flagged_unended_neighbour};
ghost use Rattle.ilk_tablegen.specs.Ways.{way_ends_at_section, first_board_with_overlong_way, board_has_overlong_way};
ghost use Rattle.ilk_plant.specs.declared.network.Dir.TheVariants.{Down, Up};
ghost use Rattle.ilk_plant.specs.declared.limits.TheConstants.{MAX_PATH};

use crate::ends::way_ends_at_section;
use crate::flags::{flag_or_false, uniform_flags};
use ilk_plant::{Dir, MAX_PATH, Plant, Row};
use std::alloc::{AllocError, Global};

fn is_flagged(plant: &Plant, d: Dir, flags: &[bool], next: Option<u32>) -> bool
    requires { IfSome next (λ y. y < length plant.now.sections) }
    ensures { result
        ≡ is_some_and next (λ y. not (way_ends_at_section plant.now d y)
        && slice_index_or flags.now y false) }
{
    match next {
        Some(y) => !way_ends_at_section(plant, d, y) && flag_or_false(flags, y),
        None => false,
    }
}

fn has_flagged_unended_neighbour(plant: &Plant, d: Dir, flags: &[bool], x: u32) -> bool
    requires { x < length plant.now.sections }
    ensures { result ≡ has_flagged_unended_neighbour plant.now d flags.now x }
{
    let first = plant.neighbour(x, d, 0);
    let second = plant.neighbour(x, d, 1);
    is_flagged(plant, d, flags, first) || is_flagged(plant, d, flags, second)
}

fn one_longer(
    alloc: Global,
    plant: &Plant,
    d: Dir,
    flags: &Row<bool>,
) -> Result<Row<bool>, AllocError>
    ensures { IfOk result
        (λ made. made
        ≡ map (has_flagged_unended_neighbour plant.now d flags.now)
        (range_with_len 0 (length plant.now.sections))) }
{
    let mut made = Row::new(alloc);
    for x in 0..plant.sections() {
        made.push(has_flagged_unended_neighbour(plant, d, flags.as_slice(), x))?;
    }
    Ok(made)
}

fn going_on(alloc: Global, plant: &Plant, d: Dir, n: u64) -> Result<Row<bool>, AllocError>
    ensures { IfOk result (λ flags. flags ≡ has_unended_path_from_each plant.now d n) }
{
    plant.prove_is_plant();
    let mut flags = uniform_flags(alloc, plant.sections(), true)?;
    for _i in 0..n {
        flags = one_longer(alloc, plant, d, &flags)?;
    }
    Ok(flags)
}

fn has_no_end(plant: &Plant, down: &[bool], up: &[bool], m: u32) -> bool
    requires known { m < length plant.now.boards }
    requires down { down.now ≡ has_unended_path_from_each plant.now Down MAX_PATH }
    requires up { up.now ≡ has_unended_path_from_each plant.now Up MAX_PATH }
    ensures { result ≡ is_some_and (slice_get plant.now.boards m)
        (board_has_overlong_way plant.now) }
{
    plant.prove_is_plant();
    let board = plant.board(m);
    match board.dir {
        Dir::Down => flag_or_false(down, board.section),
        Dir::Up => flag_or_false(up, board.section),
    }
}

/// Returns the number of the first board from which a path of `MAX_PATH` sections leads on, on
/// which no way ends. Returns `None` if there is no such board.
pub(crate) fn first_board_with_overlong_way(
    alloc: Global,
    plant: &Plant,
) -> Result<Option<u32>, AllocError>
    ensures { IfOk result (λ m. m ≡ first_board_with_overlong_way plant.now) }
{
    let down = going_on(alloc, plant, Dir::Down, MAX_PATH)?;
    let up = going_on(alloc, plant, Dir::Up, MAX_PATH)?;
    for m in 0..plant.boards() {
        if has_no_end(plant, down.as_slice(), up.as_slice(), m) {
            return Ok(Some(m));
        }
    }
    Ok(None)
}
