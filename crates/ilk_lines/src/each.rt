ghost use Rattle.std.specs.Prelude.{ℕ, ◌≡◌, ◌<◌, ◌≤◌, ◌^◌, length, Option, Ok, IfOk, OnOk};
ghost use Rattle.ilk_lines.specs.Answers.{PrefixMatchesUnlessOutOfMemory, parsed_prefix_from_parts};
ghost use Rattle.ilk_lines.specs.Lines.{Bytes};
ghost use Rattle.ilk_lines.specs.LinesLeft.{TookFirstLines};
ghost use Rattle.ilk_lines.specs.Reading.{item_values_from_lines, leading_values, parsed_prefix};

use crate::{LineFault, Lines};
use ilk_base::Row;
use std::alloc::{AllocError, Global};

/// Reads one line for each item, in order, and returns their values. `tell` returns the value of an
/// item and its line, or `None` if the line is bad. Fails with the number of the first line that is
/// missing or bad, or if memory runs out. Later lines are left.
///
/// If `tell` computes `value`, the result is that of the definition `item_values_from_lines` for
/// `value`.
pub fn read_one_line_per_item<T: Drop, F: Fn(u32, &[u8]) -> Option<T>>(
    alloc: Global,
    lines: &mut Lines,
    items: &[u32],
    tell: F,
) -> Result<Row<T>, LineFault>
    requires { F.IsAlwaysCallable tell }
    ensures told { (value : ℕ → Bytes → Option T) →
        ((x : ℕ) (line : _) (v : _) → x < 2 ^ 32 → F.post tell x line v → v ≡ value x line.now) →
        PrefixMatchesUnlessOutOfMemory (item_values_from_lines value items.now lines.old.number
        lines.old.lines)
        lines.new result }
    ensures after { OnOk result (lines.new.after ≡ lines.old.after) }
    ensures left { (n : ℕ) × (n ≤ length items.now) × TookFirstLines n lines.old lines.new }
{
    let mut values = Row::new(alloc);
    for x in items {
        let number = lines.number();
        let Some(line) = lines.next() else {
            return Err(LineFault::BadLine(number));
        };
        let Some(value) = tell(*x, line) else {
            return Err(LineFault::BadLine(number));
        };
        values.push(value)?;
    }
    Ok(values)
}

/// Reads lines as long as `tell` returns a value for them, and returns these values. The first line
/// without a value, and all after it, are left. Fails only if memory runs out.
///
/// If `tell` computes `value`, the result is that of the definition `parsed_prefix` for `value`.
pub fn read_while_some<T: Drop, F: Fn(&[u8]) -> Result<Option<T>, AllocError>>(
    alloc: Global,
    lines: &mut Lines,
    tell: F,
) -> Result<Row<T>, AllocError>
    requires { F.IsAlwaysCallable tell }
    ensures told { (value : Bytes → Option T) →
        ((line : _) (v : _) → F.post tell line (Ok v) → v ≡ value line.now) →
        IfOk result
        (λ values. parsed_prefix value lines.old.number lines.old.lines
        ≡ parsed_prefix_from_parts values lines.new) }
    ensures after { lines.new.after ≡ lines.old.after }
    ensures left { (n : ℕ) × TookFirstLines n lines.old lines.new × ((value : Bytes → Option T)
        → ((line : _) (v : _) → F.post tell line (Ok v) → v ≡ value line.now)
        → n ≤ length (leading_values value lines.old.lines)) }
{
    let mut values = Row::new(alloc);
    while let Some((line, after)) = lines.split_first() {
        let Some(value) = tell(line)? else {
            return Ok(values);
        };
        values.push(value)?;
        *lines = after;
    }
    Ok(values)
}
