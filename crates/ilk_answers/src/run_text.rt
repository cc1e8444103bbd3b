ghost use Rattle.std.specs.Prelude.{◌≡◌, All, IfOk};
ghost use Rattle.ilk_replay.specs.RunText.{run_text};
ghost use Rattle.ilk_replay.specs.Writable.{IsEventSubjectOfPlant};
ghost use Rattle.ilk_replay.specs.Told.{run_from_start};

use ilk_model::{Event, start};
use ilk_plant::{Plant, Row};
use ilk_replay::{Told, write_run};
use std::alloc::{AllocError, Global};

/// Returns the run text of `events`, a run from the initial state.
pub(crate) fn run_text_from_start(
    alloc: Global,
    plant: &Plant,
    events: Row<Event>,
) -> Result<Vec<u8>, AllocError>
    requires { All (IsEventSubjectOfPlant plant.now) events }
    ensures { IfOk result (λ text. text.items
        ≡ run_text plant.now (run_from_start plant.now events)) }
{
    let first = start(alloc, plant)?;
    let told = Told {
        first,
        from_start: true,
        events,
    };
    write_run(alloc, plant, &told)
}
