ghost use Rattle.std.specs.Prelude.{◌≡◌, ◌==◌, ◌++◌, not, IfOk, OnOk, map};
ghost use Rattle.ilk_plant.specs.NetworkRules.{ends_from_optional_neighbour, opposite_direction as opposite_of};
ghost use Rattle.ilk_base.specs.Option.{is_some_and};
ghost use Rattle.ilk_plant.specs.Plant.{first_number_named};
ghost use Rattle.ilk_net_check.specs.Numbers.{resolved_end, resolved_ends_of_section, ends_of_section};

use ilk_plant::{Dir, KindDraft, Names, Row, SectionDraft, Text};
use std::alloc::{AllocError, Global};

/// An end of a section at which it names a neighbour: the side, and the neighbour's number.
/// `section` is `None` if no section has that name.
#[derive(Clone, Copy, PartialEq, Eq, Debug)]
pub(crate) struct ResolvedEnd {
    pub side: Dir,
    pub section: Option<u32>,
}

impl ResolvedEnd {
    /// Returns whether the neighbour at this end is section `x`.
    pub fn refers_to(&self, x: u32) -> bool
        ensures { result ≡ is_some_and self.now.section (λ y. y == x) }
    {
        match self.section {
            Some(y) => y == x,
            None => false,
        }
    }

    /// Returns whether the neighbour at this end exists and isn't section `x`.
    pub fn refers_to_another(&self, x: u32) -> bool
        ensures { result ≡ is_some_and self.now.section (λ y. not (y == x)) }
    {
        match self.section {
            Some(y) => y != x,
            None => false,
        }
    }
}

/// Returns the direction opposite to `dir`.
pub(crate) fn opposite(dir: Dir) -> Dir
    ensures { result ≡ opposite_of dir }
{
    match dir {
        Dir::Up => Dir::Down,
        Dir::Down => Dir::Up,
    }
}

fn end_of(names: &Names, side: Dir, name: &Text) -> ResolvedEnd
    ensures { result ≡ record { side = side; section = first_number_named names.now name.now } }
{
    ResolvedEnd {
        side,
        section: names.number(name.as_str()),
    }
}

fn push_end(
    names: &Names,
    ends: &mut Row<ResolvedEnd>,
    side: Dir,
    name: &Option<Text>,
) -> Result<(), AllocError>
    ensures { OnOk result
        (ends.new ≡ ends.old
        ++ map (resolved_end (first_number_named names.now))
        (ends_from_optional_neighbour side name.now)) }
{
    if let Some(name) = name {
        ends.push(end_of(names, side, name))?;
    }
    Ok(())
}

fn resolved_ends_of_section(
    alloc: Global,
    names: &Names,
    kind: &KindDraft,
) -> Result<Row<ResolvedEnd>, AllocError>
    ensures { IfOk result
        (λ made. made ≡ resolved_ends_of_section (first_number_named names.now) kind.now) }
{
    let mut ends = Row::new(alloc);
    match kind {
        KindDraft::Linear { down, up, .. } => {
            push_end(names, &mut ends, Dir::Down, down)?;
            push_end(names, &mut ends, Dir::Up, up)?;
        }
        KindDraft::Point {
            stem,
            plus,
            minus,
            faces,
        } => {
            ends.push(end_of(names, opposite(*faces), stem))?;
            ends.push(end_of(names, *faces, plus))?;
            ends.push(end_of(names, *faces, minus))?;
        }
    }
    Ok(ends)
}

/// Returns, for each section in order, its ends that have a neighbour, with the neighbours'
/// numbers. `names` are the names of the sections. Fails only if memory runs out.
pub(crate) fn resolved_ends_by_section(
    alloc: Global,
    names: &Names,
    sections: &[SectionDraft],
) -> Result<Row<Row<ResolvedEnd>>, AllocError>
    ensures { IfOk result
        (λ made. made
        ≡ map (λ section. resolved_ends_of_section (first_number_named names.now) section.kind)
        sections.now) }
{
    let mut made = Row::new(alloc);
    for section in sections {
        made.push(resolved_ends_of_section(alloc, names, &section.kind)?)?;
    }
    Ok(made)
}

/// Returns the ends of section `x` from those of all sections. Returns none if there is no section
/// `x`.
pub(crate) fn ends_of_section(all: &Row<Row<ResolvedEnd>>, x: u32) -> &[ResolvedEnd]
    ensures { result.now ≡ ends_of_section all.now x }
{
    match all.as_slice().get(x as usize) {
        Some(ends) => ends.as_slice(),
        None => &[],
    }
}
