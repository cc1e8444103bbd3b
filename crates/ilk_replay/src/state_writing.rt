ghost use Rattle.std.specs.Prelude.{◌≡◌, ◌<◌, ◌++◌, ◌∷◌, [], All, flat_map, length, string_bytes, OnOk};
ghost use Rattle.ilk_lines.specs.Reading.{indices_of_list};
ghost use Rattle.ilk_lines.specs.Written.{lines_of_items, text_of};
ghost use Rattle.ilk_plant.specs.Shape.{HasShape};
ghost use Rattle.ilk_replay.specs.RunText.{board_line, name_at_index_or_empty, point_line, route_line, section_line, full_state_lines, train_line};
ghost use Rattle.ilk_replay.specs.StateTold.{all_point_sections};

use crate::state_reading::all_point_sections;
use ilk_base::HasWord;
use ilk_plant::{Aspect, Hold, Plant, PointState, RouteState, Row, State, Train};
use std::alloc::{AllocError, Global};

fn push_route(text: &mut String, plant: &Plant, r: u32, now: &RouteState) -> Result<(), AllocError>
    requires { r < length plant.now.routes }
    ensures { OnOk result
        (string_bytes text.new
        ≡ string_bytes text.old ++ (route_line plant.now r now.now ++ 10 ∷ [])) }
{
    let name = plant.route_name(r);
    let mode = now.mode.word();
    write!(text, "route {} {} {} {}\n", name, mode, now.seen, now.rel)
}

fn push_point(text: &mut String, plant: &Plant, x: u32, now: &PointState) -> Result<(), AllocError>
    requires { x < length plant.now.sections }
    ensures { OnOk result
        (string_bytes text.new
        ≡ string_bytes text.old ++ (point_line plant.now x now.now ++ 10 ∷ [])) }
{
    let name = plant.section_name(x);
    write!(text, "point {} {} {}\n", name, now.at.word(), now.to.word())
}

fn push_board(text: &mut String, plant: &Plant, m: u32, aspect: Aspect) -> Result<(), AllocError>
    requires { m < length plant.now.boards }
    ensures { OnOk result
        (string_bytes text.new
        ≡ string_bytes text.old ++ (board_line plant.now m aspect ++ 10 ∷ [])) }
{
    write!(text, "board {} {}\n", plant.board_name(m), aspect.word())
}

fn push_section(text: &mut String, plant: &Plant, x: u32, lock: Hold) -> Result<(), AllocError>
    requires { x < length plant.now.sections }
    ensures { OnOk result
        (string_bytes text.new
        ≡ string_bytes text.old ++ (section_line plant.now x lock ++ 10 ∷ [])) }
{
    write!(text, "section {} {}\n", plant.section_name(x), lock.word())
}

fn push_name(text: &mut String, plant: &Plant, x: u32) -> Result<(), AllocError>
    requires { x < length plant.now.sections }
    ensures { OnOk result
        (string_bytes text.new ≡ string_bytes text.old ++
        32 ∷ name_at_index_or_empty plant.now.section_names x) }
{
    write!(text, " {}", plant.section_name(x))
}

fn push_names(text: &mut String, plant: &Plant, body: &[u32]) -> Result<(), AllocError>
    requires { All (λ x. x < length plant.now.sections) body.now }
    ensures { OnOk result
        (string_bytes text.new
        ≡ string_bytes text.old
        ++ flat_map (λ x. 32 ∷ name_at_index_or_empty plant.now.section_names x) body.now) }
{
    for x in body {
        push_name(text, plant, *x)?;
    }
    Ok(())
}

#[tactic(auto, using(crate::proofs::StateTexts::train_is))]
fn push_train(text: &mut String, plant: &Plant, train: &Train) -> Result<(), AllocError>
    requires { All (λ x. x < length plant.now.sections) train.now.body }
    ensures { OnOk result
        (string_bytes text.new
        ≡ string_bytes text.old ++ (train_line plant.now train.now ++ 10 ∷ [])) }
{
    write!(text, "train {}", train.dir.word())?;
    push_names(text, plant, train.body.as_slice())?;
    text.push_str("\n")
}

fn push_routes(text: &mut String, plant: &Plant, routes: &Row<RouteState>) -> Result<(), AllocError>
    requires { length routes.now ≡ length plant.now.routes }
    ensures { OnOk result
        (string_bytes text.new
        ≡ string_bytes text.old
        ++ text_of
        (lines_of_items (route_line plant.now) (indices_of_list plant.now.routes) routes.now)) }
{
    for r in 0..plant.routes() {
        push_route(text, plant, r, routes.at(r as u64))?;
    }
    Ok(())
}

fn push_points(
    alloc: Global,
    text: &mut String,
    plant: &Plant,
    points: &Row<PointState>,
) -> Result<(), AllocError>
    requires { length points.now ≡ length (all_point_sections plant.now) }
    ensures { OnOk result
        (string_bytes text.new
        ≡ string_bytes text.old
        ++ text_of
        (lines_of_items (point_line plant.now) (all_point_sections plant.now) points.now)) }
{
    let sections = all_point_sections(alloc, plant)?;
    for n in 0..sections.len() {
        push_point(text, plant, *sections.at(n), points.at(n))?;
    }
    Ok(())
}

fn push_boards(text: &mut String, plant: &Plant, boards: &Row<Aspect>) -> Result<(), AllocError>
    requires { length boards.now ≡ length plant.now.boards }
    ensures { OnOk result
        (string_bytes text.new
        ≡ string_bytes text.old
        ++ text_of
        (lines_of_items (board_line plant.now) (indices_of_list plant.now.boards) boards.now)) }
{
    for m in 0..plant.boards() {
        push_board(text, plant, m, *boards.at(m as u64))?;
    }
    Ok(())
}

fn push_sections(text: &mut String, plant: &Plant, locks: &Row<Hold>) -> Result<(), AllocError>
    requires { length locks.now ≡ length plant.now.sections }
    ensures { OnOk result
        (string_bytes text.new
        ≡ string_bytes text.old
        ++ text_of
        (lines_of_items (section_line plant.now) (indices_of_list plant.now.sections)
        locks.now)) }
{
    for x in 0..plant.sections() {
        push_section(text, plant, x, *locks.at(x as u64))?;
    }
    Ok(())
}

fn push_trains(text: &mut String, plant: &Plant, trains: &Row<Train>) -> Result<(), AllocError>
    requires { All (λ train. All (λ x. x < length plant.now.sections) train.body) trains.now }
    ensures { OnOk result
        (string_bytes text.new
        ≡ string_bytes text.old
        ++ flat_map (λ train. train_line plant.now train ++ 10 ∷ []) trains.now) }
{
    for train in trains.as_slice() {
        push_train(text, plant, train)?;
    }
    Ok(())
}

#[tactic(auto, using(crate::proofs::StateTexts::state_is, crate::proofs::StateTexts::bodies_known, crate::proofs::StateTexts::points_counted))]
/// Appends the lines of a state.
pub(crate) fn push_state(
    alloc: Global,
    text: &mut String,
    plant: &Plant,
    s: &State,
) -> Result<(), AllocError>
    requires { HasShape plant.now s.now }
    ensures { OnOk result
        (string_bytes text.new ≡ string_bytes text.old
        ++ text_of (full_state_lines plant.now s.now)) }
{
    plant.prove_is_plant();
    push_routes(text, plant, &s.routes)?;
    push_points(alloc, text, plant, &s.points)?;
    push_boards(text, plant, &s.boards)?;
    push_sections(text, plant, &s.locks)?;
    push_trains(text, plant, &s.trains)?;
    Ok(())
}
