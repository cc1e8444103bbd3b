ghost use Rattle.std.specs.Prelude.{◌≡◌, [], IfOk};
ghost use Rattle.ilk_base.specs.Option.{then_some};

use crate::step::Step;
use ilk_base::Row;
use ilk_cnf::Lit;
use std::alloc::{AllocError, Global};

/// The literals and hints of a step that was read. Its memory is reused from line to line.
#[derive(Drop)]
pub struct StepBuffer {
    pub clause: Vec<Lit>,
    pub hints: Vec<u64>,
}

fn row_of<T: Copy>(alloc: Global, items: &[T]) -> Result<Row<T>, AllocError>
    ensures { IfOk result (λ row. row ≡ items.now) }
{
    let mut row = Row::new(alloc);
    for item in items {
        row.push(*item)?;
    }
    Ok(row)
}

impl StepBuffer {
    /// Creates a step line without literals and hints.
    pub fn empty(alloc: Global) -> StepBuffer
        ensures clause { result.clause.items ≡ [] }
        ensures hints { result.hints.items ≡ [] }
    {
        StepBuffer {
            clause: Vec::new(alloc),
            hints: Vec::new(alloc),
        }
    }

    /// Returns a copy of the step if `wanted`, otherwise `None`.
    pub(crate) fn copy_if(&self, alloc: Global, wanted: bool) -> Result<Option<Step>, AllocError>
        ensures { IfOk result
            (λ copy. copy
            ≡ then_some wanted
            (record { clause = self.now.clause.items; hints = self.now.hints.items })) }
    {
        if !wanted {
            return Ok(None);
        }
        let clause = row_of(alloc, self.clause.as_slice())?;
        let hints = row_of(alloc, self.hints.as_slice())?;
        Ok(Some(Step { clause, hints }))
    }
}
