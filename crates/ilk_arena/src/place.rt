ghost use Rattle.std.specs.Prelude.{◌≡◌, ◌<◌, ◌≤◌, ◌+◌, ◌*◌};
ghost use Rattle.ilk_arena.specs.Arena.{place};
ghost use Rattle.ilk_arena.specs.Linked.{lit_with_place_number};

use ilk_cnf::Lit;

/// The exclusive bound of places and references, so that each fits a 32-bit word. It also limits
/// the words of a block.
pub(crate) const WORD_VALUE_LIMIT: u64 = 1 << 32;

/// Returns the place of literal `l`: the index of its chain's head.
#[inline(always)]
pub(crate) fn place(l: Lit) -> u32
    requires { 2 * l.var + 1 < WORD_VALUE_LIMIT }
    ensures { result ≡ place l }
{
    let negative = 2 * l.var() as u32;
    if l.positive() { negative + 1 } else { negative }
}

/// Returns the literal with place `place`.
#[inline(always)]
pub(crate) fn lit_with_place_number(place: u32) -> Lit
    requires { 2 ≤ place }
    ensures { result ≡ lit_with_place_number place }
{
    Lit::new(place as u64 / 2, place % 2 == 1)
}
