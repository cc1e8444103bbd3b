ghost use Rattle.std.specs.Prelude.{◌≡◌, drop, map, take, IfOk};
ghost use Rattle.ilk_log.specs.Packed.{lit_from_code, decoded_numbers};

use crate::hints::Hints;
use crate::numbers::decode_number_from_delta;
use ilk_cnf::{Lit, Lits};
use std::alloc::{AllocError, Global};

/// Returns the literal with code `number`.
pub(crate) fn lit_from_code(number: u64) -> Lit
    ensures { result ≡ lit_from_code number }
{
    Lit::new(number / 2 % (1 << 62) + 1, number % 2 == 1)
}

/// Returns the literals of the first `count` numbers in `bytes`, the index of the byte after them,
/// and the last number.
pub(crate) fn unpack_literals(
    alloc: Global,
    bytes: &[u8],
    count: u64,
) -> Result<(Lits, usize, u64), AllocError>
    ensures literals { IfOk result
        (λ r. r.0 ≡ map lit_from_code (take count (decoded_numbers 0 0 bytes.now))) }
    ensures rest { IfOk result
        (λ r. decoded_numbers r.2 0 (drop r.1 bytes.now)
        ≡ drop count (decoded_numbers 0 0 bytes.now)) }
{
    let mut lits = Lits::new(alloc);
    let mut at = 0;
    let mut last = 0;
    'literals: for i in 0..count {
        let Some((number, next)) = decode_number_from_delta(bytes, at, last) else {
            return Ok((lits, at, last));
        };
        lits.push(lit_from_code(number))?;
        at = next;
        last = number;
    }
    Ok((lits, at, last))
}

/// Returns the hints of a packed step: the numbers from byte `at` on, if the number before is
/// `last`.
pub(crate) fn unpack_hints(
    alloc: Global,
    bytes: &[u8],
    at: usize,
    last: u64,
) -> Result<Hints, AllocError>
    ensures { IfOk result (λ hints. hints ≡ decoded_numbers last 0 (drop at bytes.now)) }
{
    let mut hints = Hints::with_capacity(alloc, bytes.len() as u64)?;
    let mut at = at;
    let mut last = last;
    'numbers: loop {
        let Some((number, next)) = decode_number_from_delta(bytes, at, last) else {
            return Ok(hints);
        };
        hints.push(number)?;
        at = next;
        last = number;
    }
}
