ghost use Rattle.std.specs.Prelude.{ℕ, ◌≡◌, ◌&&◌, ◌||◌, ◌+◌, ◌<◌, drop, false, length, nat_lt, not, take};
ghost use Rattle.std.specs.List.{list_any};
ghost use Rattle.ilk_plant.specs.ColumnRules.{breaks_column_rule_at_pair};
ghost use Rattle.ilk_table_check.specs.Columns.{listed_conflict_matrix, does_not_list_all_later_routes, has_other_route_not_listed, listed_conflict_flag_or_false};
ghost use Rattle.ilk_base.specs.Numbers.{has_number};

use crate::conflicts::listed_conflict_flag_or_false;
use crate::flags::Flags;
use crate::pairs::is_protecting_board;
use ilk_plant::{Plant, Route, Row, Rule};

fn any_alone(listed: &Row<Flags>, conflicts: &[u32], i: u32) -> bool
    ensures { result ≡ list_any
        (λ j. not (listed_conflict_flag_or_false listed.now j i)) conflicts.now }
{
    conflicts
        .iter()
        .any(|j| !listed_conflict_flag_or_false(listed, *j, i))
}

fn any_unset_after(flags: &Flags, i: u32) -> bool
    ensures { result ≡ list_any not (drop (i + 1) flags.now) }
{
    flags
        .as_slice()
        .iter()
        .skip(i as usize + 1)
        .any(|flag| !*flag)
}

fn does_not_list_all_later_routes(listed: &Row<Flags>, i: u32) -> bool
    ensures { result ≡ does_not_list_all_later_routes listed.now i }
{
    match listed.as_slice().get(i as usize) {
        Some(flags) => any_unset_after(flags, i),
        None => false,
    }
}

fn any_unset_before(flags: &Flags, i: u32) -> bool
    ensures { result ≡ list_any not (take i flags.now) }
{
    flags.as_slice().iter().take(i as usize).any(|flag| !*flag)
}

fn any_other_unset(flags: &Flags, i: u32) -> bool
    ensures { result ≡ (list_any not (take i flags.now) || list_any not (drop (i + 1) flags.now)) }
{
    any_unset_before(flags, i) || any_unset_after(flags, i)
}

fn has_other_route_not_listed(listed: &Row<Flags>, i: u32) -> bool
    ensures { result ≡ has_other_route_not_listed listed.now i }
{
    match listed.as_slice().get(i as usize) {
        Some(flags) => any_other_unset(flags, i),
        None => false,
    }
}

// Returns whether some protecting board of route `i` may be the source of a route that it doesn't
// list.
fn may_protect_unlisted(listed: &Row<Flags>, route: &Route, i: u32) -> bool
    ensures { result ≡ (has_number route.now.source route.now.protecting_boards
        || (nat_lt 0 (length route.now.protecting_boards) && has_other_route_not_listed listed.now
        i)) }
{
    is_protecting_board(route, route.source)
        || (route.protecting_boards.len() > 0 && has_other_route_not_listed(listed, i))
}

/// Returns whether `rule` (C5, C6 or C8) may be violated at a pair of routes that begins with route
/// `i`. If `false`, it is violated at no such pair, and none has to be checked. `listed` is the
/// table of all routes' conflicts.
pub(crate) fn may_break_with_first_route(
    plant: &Plant,
    listed: &Row<Flags>,
    rule: Rule,
    i: u32,
) -> bool
    requires first { i < length plant.now.routes }
    requires listed { listed.now ≡ listed_conflict_matrix plant.now }
    ensures { result ≡ false → (j : ℕ) → j < length plant.now.routes →
        breaks_column_rule_at_pair plant.now rule i j ≡ false }
{
    let route = plant.route(i);
    match rule {
        Rule::C5 => any_alone(listed, route.conflicts.as_slice(), i),
        Rule::C6 => does_not_list_all_later_routes(listed, i),
        Rule::C8 => may_protect_unlisted(listed, route, i),
        _ => true,
    }
}
