ghost use Rattle.std.specs.Prelude.{ℕ, ◌≡◌, ◌==◌, ◌||◌, ◌+◌, ◌<◌, if◌then◌else◌};
ghost use Rattle.std.specs.Int.{bit_at};
ghost use Rattle.ilk_plant.specs.Network.{contains_section};
ghost use Rattle.ilk_model.specs.Hazard.{has_two_trains};
ghost use Rattle.ilk_model.specs.Shared.{is_in_shared_sections};

use ilk_plant::State;

/// The sections that two or more trains occupy, or that two or more routes hold, as bits. Bit `x`
/// of `low` is for section `x`; bit `x` of `high` is for section 128 + `x`.
#[derive(Clone, Copy)]
pub(crate) struct SharedSections {
    pub(crate) low: u128,
    pub(crate) high: u128,
}

// Returns the index of section `y` among the 128 sections from `from`, or 128 if it is none of
// them.
fn place_of(y: u32, from: u32) -> u32
    ensures { (x : ℕ) → x < 128 → (result == x) ≡ (y == from + x) }
{
    if y < from {
        return 128;
    }
    let place = y - from;
    if place < 128 { place } else { 128 }
}

/// Returns the bits with that of section `y` set: bit `x`, below 128, for section `from` + `x`.
pub(crate) fn with_section(bits: u128, y: u32, from: u32) -> u128
    ensures { (x : ℕ) → x < 128 →
        bit_at result x ≡ (if bit_at bits x == 1 || y == from + x then 1 else 0) }
{
    let place = place_of(y, from);
    if place < 128 { bits | 1 << place } else { bits }
}

/// Returns the sections of a list as bits: bit `x`, below 128, for section `from` + `x`.
pub(crate) fn section_bits_from(sections: &[u32], from: u32) -> u128
    ensures { (x : ℕ) → x < 128 →
        bit_at result x ≡ (if contains_section (from + x) sections.now then 1 else 0) }
{
    let mut bits: u128 = 0;
    for y in sections {
        bits = with_section(bits, *y, from);
    }
    bits
}

fn shared_from(s: &State, from: u32) -> u128
    ensures { (x : ℕ) → x < 128 → bit_at result x
        ≡ (if has_two_trains s.now (from + x) then 1 else 0) }
{
    let mut seen: u128 = 0;
    let mut shared: u128 = 0;
    for train in s.trains.as_slice() {
        let body = section_bits_from(train.body.as_slice(), from);
        shared |= seen & body;
        seen |= body;
    }
    shared
}

/// Returns the sections below 256 that two or more trains occupy.
pub(crate) fn shared_sections(s: &State) -> SharedSections
    ensures { (x : ℕ) → x < 256 → is_in_shared_sections result x ≡ has_two_trains s.now x }
{
    SharedSections {
        low: shared_from(s, 0),
        high: shared_from(s, 128),
    }
}

fn has_bit(bits: u128, x: u32) -> bool
    ensures { result ≡ (bit_at bits x == 1) }
{
    x < 128 && (bits >> x) & 1 == 1
}

/// Returns whether section `x` is one of these.
pub(crate) fn is_in_shared_sections(shared: SharedSections, x: u32) -> bool
    ensures { result ≡ is_in_shared_sections shared x }
{
    if x < 128 {
        has_bit(shared.low, x)
    } else {
        has_bit(shared.high, x - 128)
    }
}
