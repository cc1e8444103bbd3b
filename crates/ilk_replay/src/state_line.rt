ghost use Rattle.std.specs.Prelude.{◌≡◌, IfOk, option_map};
ghost use Rattle.ilk_replay.specs.StateLine.{board_from_line, lock_from_line, point_state_from_words, point_from_line, route_state_from_words, route_from_line, rest_after_kind_and_name, sections_named, dir_and_names_from_words, train_from_line, train_from_connected_body};
ghost use Rattle.ilk_lines.specs.Words.{words_of};

use crate::names::section_named;
use ilk_lines::{decimal_up_to, split_at_first_space, split_off_first_word, strip_word_and_space};
use ilk_plant::{
    Aspect, Dir, Hold, Lie, Mode, Plant, PointState, Position, RouteState, Row, Train,
};
use std::alloc::{AllocError, Global};

fn said_of<'a>(kind: &[u8], name: &[u8], line: &'a [u8]) -> Option<&'a [u8]>
    ensures { option_map (λ text. text.now) result ≡
        rest_after_kind_and_name kind.now name.now line.now }
{
    strip_word_and_space(strip_word_and_space(line, kind)?, name)
}

fn route_said(limit: u32, text: &[u8]) -> Option<RouteState>
    ensures { result ≡ route_state_from_words limit text.now }
{
    let (mode, counts) = split_at_first_space(text)?;
    let (seen, rel) = split_at_first_space(counts)?;
    let mode = Mode::from_word(mode)?;
    let seen = decimal_up_to(seen, limit as u64)? as u32;
    let rel = decimal_up_to(rel, limit as u64)? as u32;
    Some(RouteState { mode, seen, rel })
}

/// Returns the state of route `r` from its line.
pub(crate) fn route_from_line(plant: &Plant, r: u32, line: &[u8]) -> Option<RouteState>
    ensures { result ≡ route_from_line plant.now r line.now }
{
    if r >= plant.routes() {
        return None;
    }
    let limit = plant.route(r).path.len() as u32;
    let text = said_of(b"route", plant.route_name(r).as_bytes(), line)?;
    route_said(limit, text)
}

fn point_said(text: &[u8]) -> Option<PointState>
    ensures { result ≡ point_state_from_words text.now }
{
    let (at, to) = split_at_first_space(text)?;
    let at = Lie::from_word(at)?;
    let to = Position::from_word(to)?;
    Some(PointState { at, to })
}

/// Returns the state of the point on section `x` from its line.
pub(crate) fn point_from_line(plant: &Plant, x: u32, line: &[u8]) -> Option<PointState>
    ensures { result ≡ point_from_line plant.now x line.now }
{
    plant.prove_is_plant();
    if x >= plant.sections() {
        return None;
    }
    let text = said_of(b"point", plant.section_name(x).as_bytes(), line)?;
    point_said(text)
}

/// Returns the aspect of board `m` from its line.
pub(crate) fn board_from_line(plant: &Plant, m: u32, line: &[u8]) -> Option<Aspect>
    ensures { result ≡ board_from_line plant.now m line.now }
{
    plant.prove_is_plant();
    if m >= plant.boards() {
        return None;
    }
    let text = said_of(b"board", plant.board_name(m).as_bytes(), line)?;
    Aspect::from_word(text)
}

/// Returns the lock of section `x` from its line.
pub(crate) fn lock_from_line(plant: &Plant, x: u32, line: &[u8]) -> Option<Hold>
    ensures { result ≡ lock_from_line plant.now x line.now }
{
    plant.prove_is_plant();
    if x >= plant.sections() {
        return None;
    }
    let text = said_of(b"section", plant.section_name(x).as_bytes(), line)?;
    Hold::from_word(text)
}

#[tactic(auto, using(crate::proofs::Bodies::taken_name, crate::proofs::Bodies::unknown_name))]
// Returns the numbers of the sections with these names, or `None` if one is unknown.
fn sections_named(
    alloc: Global,
    plant: &Plant,
    names: &[u8],
) -> Result<Option<Row<u32>>, AllocError>
    ensures { IfOk result (λ body. body ≡ sections_named plant.now (words_of names.now)) }
{
    let mut body = Row::new(alloc);
    let mut rest = Some(names);
    while let Some(text) = rest {
        let (name, more) = split_off_first_word(text);
        let Some(x) = section_named(plant, name) else {
            return Ok(None);
        };
        body.push(x)?;
        rest = more;
    }
    Ok(Some(body))
}

fn train_said(line: &[u8]) -> Option<(Dir, &[u8])>
    ensures { option_map (λ said. (said.0, said.1.now)) result ≡ dir_and_names_from_words line.now }
{
    let rest = strip_word_and_space(line, b"train")?;
    let (dir, names) = split_at_first_space(rest)?;
    Some((Dir::from_word(dir)?, names))
}

fn train_from_connected_body(plant: &Plant, dir: Dir, body: Row<u32>) -> Option<Train>
    ensures { result ≡ train_from_connected_body plant.now dir body }
{
    let train = Train { dir, body };
    if plant.has_nonempty_connected_body(&train) {
        Some(train)
    } else {
        None
    }
}

/// Returns the train of `line`, or `None` if it isn't the line of a train.
pub(crate) fn train_from_line(
    alloc: Global,
    plant: &Plant,
    line: &[u8],
) -> Result<Option<Train>, AllocError>
    ensures { IfOk result (λ train. train ≡ train_from_line plant.now line.now) }
{
    let Some((dir, names)) = train_said(line) else {
        return Ok(None);
    };
    let Some(body) = sections_named(alloc, plant, names)? else {
        return Ok(None);
    };
    Ok(train_from_connected_body(plant, dir, body))
}
