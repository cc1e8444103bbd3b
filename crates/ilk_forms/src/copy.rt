ghost use Rattle.std.specs.Prelude.{◌≡◌, ℕ, ◌+◌, ◌*◌, ◌≤◌, ◌++◌, List, Bool, nat_lt, sum, length, OnOk, IfOk, IsTrue};
ghost use Rattle.std.specs.List.{list_all};
ghost use Rattle.ilk_cnf.specs.Extends.{PartExtensionsAreExactly};
ghost use Rattle.ilk_cnf.specs.Formula.{with_var_count_and_clauses, with_var_count};
ghost use Rattle.ilk_cnf.specs.Part.{with_part, clauses_from_lists};
ghost use Rattle.ilk_ir.specs.System.{in_ranges};
ghost use Rattle.ilk_forms.specs.Copy.{system_var_part, range_class_part, no_lits_for_each_var, copy_part, copy_var_count, copy_bits, AreCopyBits, LiteralsEncode};

use ilk_base::Row;
use ilk_cnf::{Cnf, Lits};
use ilk_ints::{
    Bounded, add_bound_lits, add_number_clauses, add_value_lits, bit_count, reserve_number,
    reserve_value_and_bound_vars,
};
use ilk_ir::Ranges;
use std::alloc::{AllocError, Global};

/// The literals of one variable in a copy (time frame): one for each value, and one for each upper
/// bound that has its own.
#[derive(Drop)]
pub struct VarValueAndBoundLits {
    pub values: Lits,
    pub bounds: Lits,
}

/// The literals of all variables of a copy (time frame), in order.
pub type CopyLits = Row<VarValueAndBoundLits>;

/// The number of ranges that a variable may have: from 0 to 255 values.
pub(crate) const MAX_RANGES: u64 = 256;

/// Adds the variables of a copy (time frame) with these `ranges` to `cnf`, and no clause;
/// `add_copy_clauses` adds the clauses. On error, `cnf` may have grown.
pub fn reserve_copy_vars(cnf: &mut Cnf, ranges: &Ranges) -> Result<(), AllocError>
    ensures taken { OnOk result
        (cnf.new ≡ with_var_count cnf.old (cnf.old.vars + copy_var_count ranges.now)) }

    // At most two variables for each value of a variable.
    ensures vars { OnOk result (cnf.new.vars ≤ cnf.old.vars + 2 * sum ranges.now) }
{
    for range in ranges.as_slice() {
        reserve_number(cnf, *range)?;
        reserve_value_and_bound_vars(cnf, *range)?;
    }
    Ok(())
}

fn add_system_var(
    alloc: Global,
    cnf: &mut Cnf,
    used: &mut u64,
    range: u8,
) -> Result<VarValueAndBoundLits, AllocError>
    requires there { (system_var_part range used.old).part.vars ≤ cnf.old.vars }
    ensures column { IfOk result (λ column. column ≡ (system_var_part range used.old).column) }
    ensures vars { OnOk result (cnf.new.vars ≡ cnf.old.vars) }
    ensures made { OnOk result
        (with_var_count cnf.new used.new
        ≡ with_part (with_var_count cnf.old used.old) (system_var_part range used.old).part) }
{
    let _ = cnf.vars();
    let n = Bounded {
        first: *used + 1,
        range,
    };
    add_number_clauses(alloc, cnf, n)?;
    *used += bit_count(range);
    let values = add_value_lits(alloc, cnf, used, n)?;
    let bounds = add_bound_lits(alloc, cnf, used, n, values.as_slice())?;
    Ok(VarValueAndBoundLits { values, bounds })
}

fn add_range_class(
    alloc: Global,
    cnf: &mut Cnf,
    used: &mut u64,
    ranges: &[u8],
    range: u8,
    table: &mut CopyLits,
) -> Result<(), AllocError>
    requires columns { length table.old ≡ length ranges.now }
    requires there { (range_class_part range ranges.now table.old used.old).part.vars
        ≤ cnf.old.vars }
    ensures table { OnOk result
        (table.new ≡ (range_class_part range ranges.now table.old used.old).columns) }
    ensures vars { OnOk result (cnf.new.vars ≡ cnf.old.vars) }
    ensures made { OnOk result
        (with_var_count cnf.new used.new
        ≡ with_part (with_var_count cnf.old used.old)
        (range_class_part range ranges.now table.old used.old).part) }
{
    for (v, other) in ranges.iter().enumerate() {
        if *other == range {
            *table.at_mut(v as u64) = add_system_var(alloc, cnf, used, range)?;
        }
    }
    Ok(())
}

fn no_lits_for_each_var(alloc: Global, ranges: &[u8]) -> Result<CopyLits, AllocError>
    ensures { IfOk result (λ table. table ≡ no_lits_for_each_var ranges.now) }
{
    let mut table = CopyLits::new(alloc);
    for _ in ranges {
        let (values, bounds) = (Lits::new(alloc), Lits::new(alloc));
        table.push(VarValueAndBoundLits { values, bounds })?;
    }
    Ok(table)
}

/// Adds the clauses of a copy (time frame) with these `ranges` to `cnf`, and returns its literals.
/// The variables of the system come in the order of their ranges, the greatest first; each has its
/// bits and, right behind them, the variables of its values and bounds. The copy's variables
/// already exist (`reserve_copy_vars`), after the first `before` ones. An assignment of those
/// extends over the copy in exactly one way for each list of values in range. On error, `cnf` may
/// have grown.
pub fn add_copy_clauses(
    alloc: Global,
    cnf: &mut Cnf,
    ranges: &Ranges,
    before: u64,
) -> Result<CopyLits, AllocError>
    requires { before + copy_var_count ranges.now ≤ cnf.old.vars }
    ensures table { IfOk result (λ table. table ≡ (copy_part ranges.now before).columns) }
    ensures made { OnOk result
        (cnf.new
        ≡ with_var_count_and_clauses cnf.old cnf.old.vars
        (clauses_from_lists (copy_part ranges.now before).part.clauses)) }
    ensures law { OnOk result
        ((a : List Bool) → length a ≡ before →
        IsTrue (list_all (λ range. nat_lt range 256) ranges.now) →
        PartExtensionsAreExactly a (copy_part ranges.now before).part (AreCopyBits ranges.now)) }

    // The literals of each variable then say its value, regardless of what follows the copy.
    ensures exact { OnOk result
        ((a c : List Bool) (ws : List ℕ) → length a ≡ before →
        IsTrue (list_all (λ range. nat_lt range 256) ranges.now) →
        IsTrue (in_ranges ws ranges.now) →
        LiteralsEncode (a ++ (copy_bits ranges.now ws ++ c))
        (copy_part ranges.now before).columns ranges.now ws) }
{
    let _ = cnf.vars();
    let mut used = before;
    let ranges = ranges.as_slice();
    let mut table = no_lits_for_each_var(alloc, ranges)?;
    for i in 0..MAX_RANGES {
        let range = (MAX_RANGES - 1 - i) as u8;
        add_range_class(alloc, cnf, &mut used, ranges, range, &mut table)?;
    }
    Ok(table)
}
