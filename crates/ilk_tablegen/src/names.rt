ghost use Rattle.std.specs.Prelude.{◌≡◌, IfOk, option_map};
ghost use Rattle.ilk_tablegen.specs.Table.{nth_name_or_empty};

use ilk_plant::{Plant, Text};
use std::alloc::{AllocError, Global};

/// Returns the name of section `x`, empty if there is no such section.
pub(crate) fn section_name(alloc: Global, plant: &Plant, x: u32) -> Result<Text, AllocError>
    ensures { IfOk result (λ name. name ≡ nth_name_or_empty plant.now.section_names x) }
{
    plant.prove_is_plant();
    if x >= plant.sections() {
        return Ok(Text::of(String::new(alloc)));
    }
    Ok(Text::of(String::from_str(alloc, plant.section_name(x))?))
}

/// Returns the name of board `m`, empty if there is no such board.
pub(crate) fn board_name(alloc: Global, plant: &Plant, m: u32) -> Result<Text, AllocError>
    ensures { IfOk result (λ name. name ≡ nth_name_or_empty plant.now.board_names m) }
{
    plant.prove_is_plant();
    if m >= plant.boards() {
        return Ok(Text::of(String::new(alloc)));
    }
    Ok(Text::of(String::from_str(alloc, plant.board_name(m))?))
}

/// Returns the name of section `x`, or `None` if `x` is `None`.
pub(crate) fn optional_section_name(
    alloc: Global,
    plant: &Plant,
    x: Option<u32>,
) -> Result<Option<Text>, AllocError>
    ensures { IfOk result (λ name. name
        ≡ option_map (nth_name_or_empty plant.now.section_names) x) }
{
    match x {
        Some(x) => Ok(Some(section_name(alloc, plant, x)?)),
        None => Ok(None),
    }
}

/// Returns the name of board `m`, or `None` if `m` is `None`.
pub(crate) fn optional_board_name(
    alloc: Global,
    plant: &Plant,
    m: Option<u32>,
) -> Result<Option<Text>, AllocError>
    ensures { IfOk result (λ name. name ≡ option_map (nth_name_or_empty plant.now.board_names) m) }
{
    match m {
        Some(m) => Ok(Some(board_name(alloc, plant, m)?)),
        None => Ok(None),
    }
}
