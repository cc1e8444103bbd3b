ghost use Rattle.std.specs.Prelude.{◌≡◌, ◌<◌, ◌^◌, IfOk, map};
ghost use Rattle.std.specs.List.{range_with_len};
ghost use Rattle.ilk_decode.specs.Read.{decoded_board, decoded_lock_state, decoded_occupancy, decoded_point, decoded_route};

use crate::numbers::{
    aspect_from_number, lie_from_number, lock_state_from_number, mode_from_number, number_at,
    occupancy_from_number, position_from_number,
};
use ilk_base::Row;
use ilk_layout::Occupancy;
use ilk_plant::{Aspect, Hold, PointState, RouteState};
use std::alloc::{AllocError, Global};

pub(crate) fn decode_routes(
    alloc: Global,
    values: &[u8],
    count: u32,
) -> Result<Row<RouteState>, AllocError>
    ensures { IfOk result (λ made. made ≡ map (decoded_route values.now) (range_with_len 0 count)) }
{
    let mut made = Row::new(alloc);
    for r in 0..count {
        let mode = 3 * r as u64;
        made.push(RouteState {
            mode: mode_from_number(number_at(values, mode)),
            seen: number_at(values, mode + 1) as u32,
            rel: number_at(values, mode + 2) as u32,
        })?;
    }
    Ok(made)
}

pub(crate) fn decode_points(
    alloc: Global,
    values: &[u8],
    begin: u64,
    count: u32,
) -> Result<Row<PointState>, AllocError>
    requires { begin < 2 ^ 40 }
    ensures { IfOk result
        (λ made. made ≡ map (decoded_point values.now begin) (range_with_len 0 count)) }
{
    let mut made = Row::new(alloc);
    for n in 0..count {
        let at = begin + 2 * n as u64;
        made.push(PointState {
            at: lie_from_number(number_at(values, at)),
            to: position_from_number(number_at(values, at + 1)),
        })?;
    }
    Ok(made)
}

pub(crate) fn decode_boards(
    alloc: Global,
    values: &[u8],
    begin: u64,
    count: u32,
) -> Result<Row<Aspect>, AllocError>
    requires { begin < 2 ^ 40 }
    ensures { IfOk result
        (λ made. made ≡ map (decoded_board values.now begin) (range_with_len 0 count)) }
{
    let mut made = Row::new(alloc);
    for m in 0..count {
        made.push(aspect_from_number(number_at(values, begin + m as u64)))?;
    }
    Ok(made)
}

pub(crate) fn decode_locks(
    alloc: Global,
    values: &[u8],
    begin: u64,
    count: u32,
) -> Result<Row<Hold>, AllocError>
    requires { begin < 2 ^ 40 }
    ensures { IfOk result
        (λ made. made ≡ map (decoded_lock_state values.now begin) (range_with_len 0 count)) }
{
    let mut made = Row::new(alloc);
    for x in 0..count {
        made.push(lock_state_from_number(number_at(values, begin + x as u64)))?;
    }
    Ok(made)
}

pub(crate) fn decode_occupancies(
    alloc: Global,
    values: &[u8],
    begin: u64,
    count: u32,
) -> Result<Row<Occupancy>, AllocError>
    requires { begin < 2 ^ 40 }
    ensures { IfOk result
        (λ made. made ≡ map (decoded_occupancy values.now begin) (range_with_len 0 count)) }
{
    let mut made = Row::new(alloc);
    for x in 0..count {
        made.push(occupancy_from_number(number_at(values, begin + x as u64)))?;
    }
    Ok(made)
}
