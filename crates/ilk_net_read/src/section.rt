ghost use Rattle.std.specs.Prelude.{◌≡◌, true, IfOk};
ghost use Rattle.serde_json.specs.View.{view};
ghost use Rattle.ilk_plant.specs.Limits.{neighbour_and_board_names_valid, are_names_in_section_valid};
ghost use Rattle.ilk_net_read.specs.Fault.{MatchesUnlessOutOfMemory, IsReadIfKindMatches};
ghost use Rattle.ilk_net_read.specs.Network as network;
ghost use Rattle.ilk_net_read.specs.Section as section;

use crate::fault::rule_error_at_place;
use crate::member::{has_member_count, member_as_str, member_as_text, member_as_text_or_null};
use crate::name::{is_name, is_name_if_given};
use crate::{Form, FormError, Place, ValueReadError};
use ilk_plant::{Dir, KindDraft, SectionDraft};
use serde_json::Value;
use std::alloc::Global;

fn linear(alloc: Global, value: &Value) -> Result<SectionDraft, ValueReadError>
    ensures { IsReadIfKindMatches result (section.as_linear (view value.now)) }
{
    let name = member_as_text(alloc, value, "name")?;
    let down = member_as_text_or_null(alloc, value, "down")?;
    let up = member_as_text_or_null(alloc, value, "up")?;
    let board_down = member_as_text_or_null(alloc, value, "board_down")?;
    let board_up = member_as_text_or_null(alloc, value, "board_up")?;
    if !has_member_count(value, 6) {
        return Err(ValueReadError::WrongKind);
    }
    let kind = KindDraft::Linear {
        down,
        up,
        board_down,
        board_up,
    };
    Ok(SectionDraft { name, kind })
}

fn faces(value: &Value) -> Option<Dir>
    ensures { result ≡ section.facing_direction (view value.now) }
{
    Dir::from_word(member_as_str(value, "faces")?.as_bytes())
}

fn point(alloc: Global, value: &Value) -> Result<SectionDraft, ValueReadError>
    ensures { IsReadIfKindMatches result (section.as_point (view value.now)) }
{
    let name = member_as_text(alloc, value, "name")?;
    let stem = member_as_text(alloc, value, "stem")?;
    let plus = member_as_text(alloc, value, "plus")?;
    let minus = member_as_text(alloc, value, "minus")?;
    let Some(faces) = faces(value) else {
        return Err(ValueReadError::WrongKind);
    };
    if !has_member_count(value, 6) {
        return Err(ValueReadError::WrongKind);
    }
    let kind = KindDraft::Point {
        stem,
        plus,
        minus,
        faces,
    };
    Ok(SectionDraft { name, kind })
}

fn section(alloc: Global, value: &Value) -> Result<SectionDraft, ValueReadError>
    ensures { IsReadIfKindMatches result (section.as_section (view value.now)) }
{
    match member_as_str(value, "kind") {
        Some("linear") => linear(alloc, value),
        Some("point") => point(alloc, value),
        _ => Err(ValueReadError::WrongKind),
    }
}

fn has_names(kind: &KindDraft) -> bool
    ensures { result ≡ neighbour_and_board_names_valid kind.now }
{
    match kind {
        KindDraft::Linear {
            down,
            up,
            board_down,
            board_up,
        } => {
            is_name_if_given(down)
                && is_name_if_given(up)
                && is_name_if_given(board_down)
                && is_name_if_given(board_up)
        }
        KindDraft::Point {
            stem,
            plus,
            minus,
            ..
        } => is_name(stem) && is_name(plus) && is_name(minus),
    }
}

/// Returns section `number` from its value, or its first violated rule.
pub(crate) fn section_from_value(
    alloc: Global,
    number: u32,
    value: &Value,
) -> Result<SectionDraft, FormError>
    ensures exact { MatchesUnlessOutOfMemory result (network.section_from_value number
        (view value.now)) }
    ensures named { IfOk result (λ draft. are_names_in_section_valid draft ≡ true) }
{
    let place = Place::Section(number);
    let draft = match section(alloc, value) {
        Ok(draft) => draft,
        Err(error) => return Err(error.into_form_error_at(place)),
    };
    if !is_name(&draft.name) || !has_names(&draft.kind) {
        return Err(rule_error_at_place(Form::F5, place));
    }
    Ok(draft)
}
