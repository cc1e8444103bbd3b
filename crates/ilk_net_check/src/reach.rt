ghost use Rattle.std.specs.Prelude.{ℕ, ◌≡◌, ◌≤◌, ◌<◌, ◌&&◌, ◌||◌, IfOk, length};
ghost use Rattle.std.specs.List.{list_any};
ghost use Rattle.ilk_base.specs.BitSet.{bit_set_contains};
ghost use Rattle.ilk_plant.specs.NetworkRules.{reaches_via_below};
ghost use Rattle.ilk_net_check.specs.Numbers.{IsMatrixOfTest, matrix_entry_or_false, is_up_neighbour, is_reachable_or_via_section, is_up_side_end_naming};
ghost use Rattle.ilk_plant.specs.declared.limits.TheConstants.{MAX_SECTIONS};

use crate::ends::{ResolvedEnd, ends_of_section};
use ilk_base::BitSet256;
use ilk_plant::{Dir, Row};
use std::alloc::{AllocError, Global};

fn row_at(table: &Row<BitSet256>, x: u32) -> BitSet256
    ensures { (y : ℕ) → bit_set_contains result y ≡ matrix_entry_or_false table.now x y }
{
    match table.as_slice().get(x as usize) {
        Some(row) => *row,
        None => BitSet256::empty(),
    }
}

/// Returns the entry of `table` in row `x` and column `y`. Returns `false` if it is outside the
/// table.
pub(crate) fn matrix_entry_or_false(table: &Row<BitSet256>, x: u32, y: u32) -> bool
    ensures { result ≡ matrix_entry_or_false table.now x y }
{
    row_at(table, x).contains(y)
}

fn with_end(found: BitSet256, end: &ResolvedEnd) -> BitSet256
    ensures { (y : ℕ) → y < 256 → bit_set_contains result y
        ≡ (bit_set_contains found y || is_up_side_end_naming y end.now) }
{
    match end.section {
        Some(z) => {
            if end.side == Dir::Up {
                found.with(z)
            } else {
                found
            }
        }
        None => found,
    }
}

fn next_of(ends: &[ResolvedEnd]) -> BitSet256
    ensures { (y : ℕ) → y < 256
        → bit_set_contains result y ≡ list_any (is_up_side_end_naming y) ends.now }
{
    let mut next = BitSet256::empty();
    for end in ends {
        next = with_end(next, end);
    }
    next
}

fn steps_up(
    alloc: Global,
    ends: &Row<Row<ResolvedEnd>>,
    count: u32,
) -> Result<Row<BitSet256>, AllocError>
    ensures { IfOk result (λ made. IsMatrixOfTest made count (is_up_neighbour ends.now)) }
{
    let mut made = Row::new(alloc);
    for x in 0..count {
        made.push(next_of(ends_of_section(ends, x)))?;
    }
    Ok(made)
}

// Returns row `x` after walks may also pass through `k`. `onward` is row `k`.
fn row_by_way_of(leads: &Row<BitSet256>, onward: BitSet256, k: u32, x: u32) -> BitSet256
    ensures { (y : ℕ) →
        bit_set_contains result y ≡ (matrix_entry_or_false leads.now x y
        || (matrix_entry_or_false leads.now x k && bit_set_contains onward y)) }
{
    let row = row_at(leads, x);
    if row.contains(k) {
        row.union(onward)
    } else {
        row
    }
}

// Lets walks also pass through section `k`. Row `k` itself doesn't change, so the rows can be
// updated in place.
fn go_by_way_of(leads: &mut Row<BitSet256>, k: u32, count: u32)
    requires { length leads.old ≡ count }
    ensures { IsMatrixOfTest leads.new count (is_reachable_or_via_section leads.old k) }
{
    let onward = row_at(leads, k);
    for x in 0..count {
        let row = row_by_way_of(leads, onward, k, x);
        *leads.at_mut(x as u64) = row;
    }
}

/// Returns a table of `count` rows: whether a walk up of one or more steps, only through sections
/// below `count`, leads from the row's section to the column's. `ends` has the ends of each
/// section. Fails only if memory runs out.
pub(crate) fn up_reachability_matrix(
    alloc: Global,
    ends: &Row<Row<ResolvedEnd>>,
    count: u32,
) -> Result<Row<BitSet256>, AllocError>
    requires { count ≤ MAX_SECTIONS }
    ensures { IfOk result
        (λ made. IsMatrixOfTest made count (reaches_via_below (is_up_neighbour ends.now) count)) }
{
    let mut leads = steps_up(alloc, ends, count)?;
    for k in 0..count {
        go_by_way_of(&mut leads, k, count);
    }
    Ok(leads)
}
