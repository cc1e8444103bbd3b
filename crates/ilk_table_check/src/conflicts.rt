ghost use Rattle.std.specs.Prelude.{◌≡◌, ◌<◌, IfOk, length};
ghost use Rattle.ilk_plant.specs.ColumnRules.{lists_as_conflict};
ghost use Rattle.ilk_table_check.specs.Columns.{listed_conflict_matrix, listed_conflict_flags, listed_conflict_flag_or_false};

use crate::flags::Flags;
use ilk_plant::{Plant, Row};
use std::alloc::{AllocError, Global};

fn listed_conflict_flags(alloc: Global, plant: &Plant, i: u32) -> Result<Flags, AllocError>
    requires { i < length plant.now.routes }
    ensures { IfOk result (λ made. made ≡ listed_conflict_flags plant.now i) }
{
    let flags = Flags::from_numbers(alloc, plant.routes(), plant.route(i).conflicts.as_slice())?;
    Ok(flags)
}

/// Returns a table: whether the row's route lists the column's route as a conflict. Fails only if
/// memory runs out.
pub(crate) fn listed_conflict_matrix(alloc: Global, plant: &Plant) -> Result<Row<Flags>, AllocError>
    ensures { IfOk result (λ made. made ≡ listed_conflict_matrix plant.now) }
{
    let mut made = Row::new(alloc);
    for i in 0..plant.routes() {
        made.push(listed_conflict_flags(alloc, plant, i)?)?;
    }
    Ok(made)
}

/// Returns entry `j` of row `i` of the table `listed`. Returns `false` if there is none.
pub(crate) fn listed_conflict_flag_or_false(listed: &Row<Flags>, i: u32, j: u32) -> bool
    ensures { result ≡ listed_conflict_flag_or_false listed.now i j }
{
    match listed.as_slice().get(i as usize) {
        Some(flags) => flags.at(j),
        None => false,
    }
}

/// Returns whether route `i` lists route `j` as a conflict. `listed` is the table of all routes'
/// conflicts; only the contract uses `_plant`.
pub(crate) fn lists_as_conflict(_plant: &Plant, listed: &Row<Flags>, i: u32, j: u32) -> bool
    requires first { i < length _plant.now.routes }
    requires second { j < length _plant.now.routes }
    requires listed { listed.now ≡ listed_conflict_matrix _plant.now }
    ensures { result ≡ lists_as_conflict _plant.now i j }
{
    listed_conflict_flag_or_false(listed, i, j)
}
