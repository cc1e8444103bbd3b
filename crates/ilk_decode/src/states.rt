ghost use Rattle.std.specs.Prelude.{◌≡◌, IsTrue, IfOk};
ghost use Rattle.ilk_ir.specs.System.{in_ranges};
ghost use Rattle.ilk_layout.specs.Image.{image_of};
ghost use Rattle.ilk_layout.specs.Laws.{IsWellFormedAndSafe};
ghost use Rattle.ilk_layout.specs.Variables.{ranges_of_plant};
ghost use Rattle.ilk_layout.specs.Wellformed.{is_wellformed};
ghost use Rattle.ilk_decode.specs.Order.{AreSortedByTail};
ghost use Rattle.ilk_decode.specs.Read.{decoded_state, decoded_occupancies, decoded_without_trains};

use crate::lists::{decode_boards, decode_locks, decode_occupancies, decode_points, decode_routes};
use crate::trains::trains_by_tails;
use ilk_base::Row;
use ilk_ir::Values;
use ilk_layout::Occupancy;
use ilk_plant::{Plant, State};
use std::alloc::{AllocError, Global};

fn parts_of(
    alloc: Global,
    plant: &Plant,
    values: &[u8],
) -> Result<(State, Row<Occupancy>), AllocError>
    ensures state { IfOk result (λ parts. parts.0 ≡ decoded_without_trains plant.now values.now) }
    ensures occupancies { IfOk result (λ parts. parts.1
        ≡ decoded_occupancies plant.now values.now) }
{
    let points = 3 * plant.routes() as u64;
    let boards = points + 2 * plant.points() as u64;
    let locks = boards + plant.boards() as u64;
    let occupancies = locks + plant.sections() as u64;
    let s = State {
        routes: decode_routes(alloc, values, plant.routes())?,
        points: decode_points(alloc, values, points, plant.points())?,
        boards: decode_boards(alloc, values, boards, plant.boards())?,
        locks: decode_locks(alloc, values, locks, plant.sections())?,
        trains: Row::new(alloc),
    };
    let occupied = decode_occupancies(alloc, values, occupancies, plant.sections())?;
    Ok((s, occupied))
}

fn decode(alloc: Global, plant: &Plant, values: &[u8]) -> Result<State, AllocError>
    ensures { IfOk result (λ s. s ≡ decoded_state plant.now values.now) }
{
    let (mut s, occupancies) = parts_of(alloc, plant, values)?;
    s.trains = trains_by_tails(alloc, plant, &s, occupancies.as_slice())?;
    Ok(s)
}

/// Returns a well-formed state without hazard whose image is `values`. Its trains are in ascending
/// order of their tails' sections. The values must be in range and well-formed. Fails only if
/// memory runs out.
pub fn state_of(alloc: Global, plant: &Plant, values: &Values) -> Result<State, AllocError>
    requires in_range { IsTrue (in_ranges values.now (ranges_of_plant plant.now)) }
    requires wellformed { IsTrue (is_wellformed plant.now values.now) }
    ensures calm { IfOk result (IsWellFormedAndSafe plant.now) }
    ensures image { IfOk result (λ s. image_of plant.now s ≡ values.now) }
    ensures order { IfOk result (λ s. AreSortedByTail s.trains) }
{
    plant.prove_is_plant();
    plant.prove_sound_acyclic_drafts();
    let s = decode(alloc, plant, values.as_slice())?;
    Ok(s)
}
