ghost use Rattle.std.specs.Prelude.{◌≡◌, ◌<◌, ◌++◌, ◌∷◌, [], length, map, flat_map, All, OnOk};
ghost use Rattle.ilk_ir.specs.Form.{tree_of};
ghost use Rattle.ilk_ir.specs.System.{plain_rule};
ghost use Rattle.ilk_plant.specs.Plant.{point_count};
ghost use Rattle.ilk_behave.specs.Settings as settings;

use ilk_ir::{Form, Rule, Rules, Sets, Setting};
use ilk_layout::{
    Occupancy, aspect_value, board_var, commanded_value, commanded_var, detected_value,
    detected_var, lock_value, lock_var, mode_value, mode_var, occupancy_value, occupancy_var,
    released_count_var, seen_count_var,
};
use ilk_plant::{Aspect, Dir, Hold, Lie, Listed, Mode, Plant, Position, Row, point_number_at};
use std::alloc::AllocError;

/// Adds to `rules` the rule that, if all conditions `forms` hold, makes the settings `sets`.
pub(crate) fn push_rule(rules: &mut Rules, forms: Vec<Form>, sets: Sets) -> Result<(), AllocError>
    ensures { OnOk result
        (map plain_rule rules.new
        ≡ map plain_rule rules.old ++ settings.rule (map tree_of forms.items) sets ∷ []) }
{
    rules.push(Rule {
        guard: Form::And(forms),
        sets,
    })
}

/// Returns the setting that makes `mode` the mode of route `r`.
pub(crate) fn set_mode(plant: &Plant, r: u32, mode: Mode) -> Setting
    requires { r < length plant.now.routes }
    ensures { result ≡ settings.set_mode r mode }
{
    Setting {
        var: mode_var(plant, r),
        value: mode_value(mode),
    }
}

/// Returns the setting that makes `count` the number of path sections of route `r` that trains have
/// entered.
pub(crate) fn set_seen_count(plant: &Plant, r: u32, count: u8) -> Setting
    requires { r < length plant.now.routes }
    ensures { result ≡ settings.set_seen_count r count }
{
    Setting {
        var: seen_count_var(plant, r),
        value: count,
    }
}

/// Returns the setting that makes `count` the number of released path sections of route `r`.
pub(crate) fn set_released_count(plant: &Plant, r: u32, count: u8) -> Setting
    requires { r < length plant.now.routes }
    ensures { result ≡ settings.set_released_count r count }
{
    Setting {
        var: released_count_var(plant, r),
        value: count,
    }
}

/// Returns the setting that makes `lie` the detected position of point number `n`.
pub(crate) fn set_detected(plant: &Plant, n: u32, lie: Lie) -> Setting
    requires { n < point_count plant.now }
    ensures { result ≡ settings.set_detected plant.now n lie }
{
    Setting {
        var: detected_var(plant, n),
        value: detected_value(lie),
    }
}

/// Returns the setting that makes `position` the commanded position of point number `n`.
pub(crate) fn set_commanded(plant: &Plant, n: u32, position: Position) -> Setting
    requires { n < point_count plant.now }
    ensures { result ≡ settings.set_commanded plant.now n position }
{
    Setting {
        var: commanded_var(plant, n),
        value: commanded_value(position),
    }
}

/// Returns the setting that makes `aspect` the aspect of board `m`.
pub(crate) fn set_board_aspect(plant: &Plant, m: u32, aspect: Aspect) -> Setting
    requires { m < length plant.now.boards }
    ensures { result ≡ settings.set_board_aspect plant.now m aspect }
{
    Setting {
        var: board_var(plant, m),
        value: aspect_value(aspect),
    }
}

/// Returns the setting that makes `hold` the lock of section `x`.
pub(crate) fn set_section_lock(plant: &Plant, x: u32, hold: Hold) -> Setting
    requires { x < length plant.now.sections }
    ensures { result ≡ settings.set_section_lock plant.now x hold }
{
    Setting {
        var: lock_var(plant, x),
        value: lock_value(hold),
    }
}

/// Returns the setting that makes `occupancy` the occupancy of section `x`.
pub(crate) fn set_occupancy(plant: &Plant, x: u32, occupancy: Occupancy) -> Setting
    requires { x < length plant.now.sections }
    ensures { result ≡ settings.set_occupancy plant.now x occupancy }
{
    Setting {
        var: occupancy_var(plant, x),
        value: occupancy_value(occupancy),
    }
}

/// Adds to `sets` the settings that make `hold` the lock of each of `sections`.
pub(crate) fn push_set_locks(
    sets: &mut Sets,
    plant: &Plant,
    sections: &Row<u32>,
    hold: Hold,
) -> Result<(), AllocError>
    requires { All (λ x. x < length plant.now.sections) sections.now }
    ensures { OnOk result
        (sets.new ≡ sets.old ++ settings.set_lock_of_each_section plant.now sections.now hold) }
{
    for x in sections.as_slice() {
        sets.push(set_section_lock(plant, *x, hold))?;
    }
    Ok(())
}

/// Adds to `sets` the settings that make `hold` the lock of each point's section.
pub(crate) fn push_set_point_locks(
    sets: &mut Sets,
    plant: &Plant,
    points: &Row<Listed>,
    hold: Hold,
) -> Result<(), AllocError>
    requires { All (λ listed. listed.point < length plant.now.sections) points.now }
    ensures { OnOk result
        (sets.new
        ≡ sets.old
        ++ settings.set_lock_of_each_section plant.now
        (map (λ listed. listed.point) points.now) hold) }
{
    for listed in points.as_slice() {
        sets.push(set_section_lock(plant, listed.point, hold))?;
    }
    Ok(())
}

fn push_command(sets: &mut Sets, plant: &Plant, listed: &Listed) -> Result<(), AllocError>
    ensures { OnOk result (sets.new ≡ sets.old
        ++ settings.command_listed_point plant.now listed.now) }
{
    if let Some(n) = point_number_at(plant, listed.point) {
        sets.push(set_commanded(plant, n, listed.at))?;
    }
    Ok(())
}

/// Adds to `sets` the settings that command each point to its listed position.
pub(crate) fn push_commands_as_listed(
    sets: &mut Sets,
    plant: &Plant,
    points: &Row<Listed>,
) -> Result<(), AllocError>
    ensures { OnOk result
        (sets.new ≡ sets.old ++ flat_map (settings.command_listed_point plant.now) points.now) }
{
    for listed in points.as_slice() {
        push_command(sets, plant, listed)?;
    }
    Ok(())
}

/// Adds to `sets` the setting that closes the board of section `x` for direction `d`, if there is
/// one.
pub(crate) fn push_close_board_if_any(
    sets: &mut Sets,
    plant: &Plant,
    x: u32,
    d: Dir,
) -> Result<(), AllocError>
    requires { x < length plant.now.sections }
    ensures { OnOk result
        (sets.new ≡ sets.old ++ settings.close_section_board_if_any plant.now x d) }
{
    if let Some(m) = plant.board_of(x, d) {
        sets.push(set_board_aspect(plant, m, Aspect::Closed))?;
    }
    Ok(())
}
