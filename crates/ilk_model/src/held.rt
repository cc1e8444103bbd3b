//! Family V2, which concerns all routes together, by the bits of the sections that two or more
//! routes hold.
ghost use Rattle.std.specs.Prelude.{ℕ, ◌≡◌, ◌+◌, ◌<◌, drop, if◌then◌else◌, length, map, not};
ghost use Rattle.std.specs.Int.{bit_at};
ghost use Rattle.ilk_base.specs.Each.{is_true_for_all_below};
ghost use Rattle.ilk_plant.specs.Network.{contains_section};
ghost use Rattle.ilk_plant.specs.Shape.{HasShape};
ghost use Rattle.ilk_model.specs.Families.{meets_v2_sections_held_once};
ghost use Rattle.ilk_model.specs.Holding.{holds_section, route_holds};
ghost use Rattle.ilk_model.specs.Shared.{is_held_by_two_routes, is_in_shared_sections};

use crate::holding::is_holding_state;
use crate::shared::{SharedSections, is_in_shared_sections, section_bits_from, with_section};
use ilk_plant::{Listed, Plant, Route, RouteState, State};

fn sections_of_points(points: &[Listed], from: u32) -> u128
    ensures { (x : ℕ) → x < 128 →
        bit_at result x
        ≡ (if contains_section (from + x) (map (λ listed. listed.point) points.now) then 1 else 0) }
{
    let mut bits: u128 = 0;
    for listed in points {
        bits = with_section(bits, listed.point, from);
    }
    bits
}

fn kept_sections(route: &Route, now: RouteState) -> &[u32]
    ensures { result.now ≡ drop now.rel route.now.path }
{
    let path = route.path.as_slice();
    let rel = now.rel as usize;
    if rel < path.len() { &path[rel..] } else { &[] }
}

// Returns the sections that a route holds as bits: bit `x`, below 128, for section `from` + `x`.
fn held_sections(route: &Route, now: RouteState, from: u32) -> u128
    ensures { (x : ℕ) → x < 128 →
        bit_at result x ≡ (if holds_section (from + x) route.now now then 1 else 0) }
{
    if !is_holding_state(now) {
        return 0;
    }
    let overlap = section_bits_from(route.overlap.as_slice(), from);
    let protecting = sections_of_points(route.protecting_points.as_slice(), from);
    let kept = section_bits_from(kept_sections(route, now), from);
    overlap | protecting | kept
}

fn held_by(plant: &Plant, s: &State, r: u32, from: u32) -> u128
    requires shape { HasShape plant.now s.now }
    requires known { r < length plant.now.routes }
    ensures { (x : ℕ) → x < 128 →
        bit_at result x ≡ (if route_holds plant.now s.now r (from + x) then 1 else 0) }
{
    held_sections(plant.route(r), *s.routes.at(r as u64), from)
}

fn held_twice_from(plant: &Plant, s: &State, from: u32) -> u128
    requires { HasShape plant.now s.now }
    ensures { (x : ℕ) → x < 128 →
        bit_at result x ≡ (if is_held_by_two_routes plant.now s.now (from + x) then 1 else 0) }
{
    let mut seen: u128 = 0;
    let mut shared: u128 = 0;
    for r in 0..plant.routes() {
        let held = held_by(plant, s, r, from);
        shared |= seen & held;
        seen |= held;
    }
    shared
}

fn held_twice(plant: &Plant, s: &State) -> SharedSections
    requires { HasShape plant.now s.now }
    ensures { (x : ℕ) → x < 256 → is_in_shared_sections result x ≡
        is_held_by_two_routes plant.now s.now x }
{
    SharedSections {
        low: held_twice_from(plant, s, 0),
        high: held_twice_from(plant, s, 128),
    }
}

fn has_none_of(plant: &Plant, shared: SharedSections) -> bool
    ensures { result ≡ is_true_for_all_below (length plant.now.sections) (λ x.
        not (is_in_shared_sections shared x)) }
{
    (0..plant.sections()).all(|x| !is_in_shared_sections(shared, x))
}

pub(crate) fn meets_v2_sections_held_once(plant: &Plant, s: &State) -> bool
    requires { HasShape plant.now s.now }
    ensures { result ≡ meets_v2_sections_held_once plant.now s.now }
{
    plant.prove_is_plant();
    has_none_of(plant, held_twice(plant, s))
}
