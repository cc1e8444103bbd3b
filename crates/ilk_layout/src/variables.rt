ghost use Rattle.std.specs.Prelude.{◌≡◌, ◌≤◌, ◌++◌, length, replicate, IfOk, OnOk};
ghost use Rattle.std.specs.List.{flat_map};
ghost use Rattle.ilk_plant.specs.declared.limits.TheConstants.{MAX_PATH};
ghost use Rattle.ilk_layout.specs.Variables.{points_ranges, ranges_of_plant, route_ranges};

use ilk_base::Row;
use ilk_ir::Ranges;
use ilk_plant::{Plant, Route};
use std::alloc::{AllocError, Global};

fn push_equal(ranges: &mut Ranges, count: u32, range: u8) -> Result<(), AllocError>
    ensures { OnOk result (ranges.new ≡ ranges.old ++ replicate count range) }
{
    for i in 0..count {
        ranges.push(range)?;
    }
    Ok(())
}

// Adds the ranges of a route's mode and of its counts of seen and released path sections.
fn push_route(ranges: &mut Ranges, route: &Route) -> Result<(), AllocError>
    requires { length route.now.path ≤ MAX_PATH }
    ensures { OnOk result (ranges.new ≡ ranges.old ++ route_ranges route.now) }
{
    let counts = route.path.len() as u8 + 1;
    ranges.push(5)?;
    ranges.push(counts)?;
    ranges.push(counts)?;
    Ok(())
}

fn push_routes(ranges: &mut Ranges, plant: &Plant) -> Result<(), AllocError>
    ensures { OnOk result (ranges.new ≡ ranges.old ++ flat_map route_ranges plant.now.routes) }
{
    for r in 0..plant.routes() {
        push_route(ranges, plant.route(r))?;
    }
    Ok(())
}

fn push_points(ranges: &mut Ranges, count: u32) -> Result<(), AllocError>
    ensures { OnOk result (ranges.new ≡ ranges.old ++ points_ranges count) }
{
    for i in 0..count {
        ranges.push(3)?;
        ranges.push(2)?;
    }
    Ok(())
}

/// Returns how many values each variable of the plant has, in the variables' order. Fails only if
/// memory runs out.
pub fn ranges(alloc: Global, plant: &Plant) -> Result<Ranges, AllocError>
    ensures { IfOk result (λ ranges. ranges ≡ ranges_of_plant plant.now) }
{
    let mut ranges = Row::new(alloc);
    push_routes(&mut ranges, plant)?;
    push_points(&mut ranges, plant.points())?;
    push_equal(&mut ranges, plant.boards(), 2)?;
    push_equal(&mut ranges, plant.sections(), 3)?;
    push_equal(&mut ranges, plant.sections(), 10)?;
    Ok(ranges)
}
