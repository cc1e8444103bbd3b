ghost use Rattle.std.specs.Prelude.{◌≡◌, bytes_eq, map, not};
ghost use Rattle.ilk_plant.specs.NetworkRules.{ends_of_draft, has_board_to_nowhere, is_linear_without_neighbours};
ghost use Rattle.ilk_plant.specs.Once.{names_differ};

use ilk_plant::{KindDraft, Text};

fn same_name(name: &Text, other: &Text) -> bool
    ensures { result ≡ bytes_eq name.now other.now }
{
    name.as_str() == other.as_str()
}

/// Returns whether a section of this kind names the same neighbour twice.
pub(crate) fn repeats_neighbour(kind: &KindDraft) -> bool
    ensures { result ≡ not (names_differ (map (λ end. end.name) (ends_of_draft kind.now))) }
{
    match kind {
        KindDraft::Linear {
            down: Some(down),
            up: Some(up),
            ..
        } => same_name(down, up),
        KindDraft::Linear { .. } => false,
        KindDraft::Point {
            stem,
            plus,
            minus,
            ..
        } => same_name(stem, plus) || same_name(stem, minus) || same_name(plus, minus),
    }
}

/// Returns whether a section of this kind is linear and has no neighbour.
pub(crate) fn is_linear_without_neighbours(kind: &KindDraft) -> bool
    ensures { result ≡ is_linear_without_neighbours kind.now }
{
    match kind {
        KindDraft::Linear { down, up, .. } => down.is_none() && up.is_none(),
        KindDraft::Point { .. } => false,
    }
}

/// Returns whether a section of this kind is linear and has a board in a direction in which it has
/// no neighbour.
pub(crate) fn has_board_to_nowhere(kind: &KindDraft) -> bool
    ensures { result ≡ has_board_to_nowhere kind.now }
{
    match kind {
        KindDraft::Linear {
            down,
            up,
            board_down,
            board_up,
        } => { down.is_none() && board_down.is_some() || up.is_none() && board_up.is_some() }
        KindDraft::Point { .. } => false,
    }
}
