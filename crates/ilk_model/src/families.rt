ghost use Rattle.std.specs.Prelude.{◌≡◌};
ghost use Rattle.ilk_plant.specs.Shape.{HasShape};
ghost use Rattle.ilk_model.specs.Meets.{first_broken_family};

use crate::held::meets_v2_sections_held_once;
use crate::route_families::{
    meets_v1_consistent_counts, meets_v3_locks_match_routes, meets_v4_allocating_paths_vacant,
    meets_v5_open_needs_locked, meets_v6_points_match_modes, meets_v9_protecting_boards_closed,
};
use crate::train_families::{meets_v7_heads_have_routes, meets_v8_bodies_have_routes};
use ilk_plant::{Plant, State};

/// Returns the number, 1 to 9, of the first family of the invariant that state `s` violates, or
/// `None` if it violates none.
pub fn broken_family(plant: &Plant, s: &State) -> Option<u8>
    requires { HasShape plant.now s.now }
    ensures { result ≡ first_broken_family plant.now s.now }
{
    if !meets_v1_consistent_counts(plant, s) {
        return Some(1);
    }
    if !meets_v2_sections_held_once(plant, s) {
        return Some(2);
    }
    if !meets_v3_locks_match_routes(plant, s) {
        return Some(3);
    }
    if !meets_v4_allocating_paths_vacant(plant, s) {
        return Some(4);
    }
    if !meets_v5_open_needs_locked(plant, s) {
        return Some(5);
    }
    if !meets_v6_points_match_modes(plant, s) {
        return Some(6);
    }
    if !meets_v7_heads_have_routes(plant, s) {
        return Some(7);
    }
    if !meets_v8_bodies_have_routes(plant, s) {
        return Some(8);
    }
    if !meets_v9_protecting_boards_closed(plant, s) {
        return Some(9);
    }
    None
}
