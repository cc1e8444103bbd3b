ghost use Rattle.std.specs.Prelude.{◌≡◌, ◌<◌, IfOk, false, replicate, set, slice_index_or, true};
ghost use Rattle.ilk_tablegen.specs.Flags.{any_section_flagged, path_membership_flags};

use ilk_plant::Row;
use std::alloc::{AllocError, Global};

/// Returns flag number `x`, or `false` if there are fewer flags.
pub(crate) fn flag_or_false(flags: &[bool], x: u32) -> bool
    ensures { result ≡ slice_index_or flags.now x false }
{
    match flags.get(x as usize) {
        Some(flag) => *flag,
        None => false,
    }
}

/// Returns whether the flag of one of `sections` is set.
pub(crate) fn any_section_flagged(flags: &[bool], sections: &[u32]) -> bool
    ensures { result ≡ any_section_flagged flags.now sections.now }
{
    sections.iter().any(|x| flag_or_false(flags, *x))
}

/// Creates `count` flags, each equal to `flag`.
pub(crate) fn uniform_flags(alloc: Global, count: u32, flag: bool) -> Result<Row<bool>, AllocError>
    ensures { IfOk result (λ flags. flags ≡ replicate count flag) }
{
    let mut flags = Row::new(alloc);
    for _x in 0..count {
        flags.push(flag)?;
    }
    Ok(flags)
}

fn set_flag(flags: &mut Row<bool>, x: u32)
    ensures { flags.new ≡ set flags.old x true }
{
    if (x as u64) < flags.len() {
        *flags.at_mut(x as u64) = true;
    }
}

/// Creates a flag for each number below `count`: true if the number is in `path`.
pub(crate) fn path_membership_flags(
    alloc: Global,
    count: u32,
    path: &[u32],
) -> Result<Row<bool>, AllocError>
    ensures { IfOk result (λ flags. flags ≡ path_membership_flags count path.now) }
{
    let mut flags = uniform_flags(alloc, count, false)?;
    for x in path {
        set_flag(&mut flags, *x);
    }
    Ok(flags)
}
