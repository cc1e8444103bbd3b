ghost use Rattle.std.specs.Prelude.{◌≡◌, IfOk};
ghost use Rattle.ilk_tablegen.specs.NetworkDraft.{kind_draft, section_draft, network_draft};

use crate::names::{optional_board_name, optional_section_name, section_name};
use ilk_plant::{KindDraft, NetDraft, Plant, Row, Section, SectionDraft};
use std::alloc::{AllocError, Global};

fn kind_draft(alloc: Global, plant: &Plant, section: &Section) -> Result<KindDraft, AllocError>
    ensures { IfOk result (λ kind. kind ≡ kind_draft plant.now section.now) }
{
    match section {
        Section::Linear {
            down,
            up,
            board_down,
            board_up,
        } => Ok(KindDraft::Linear {
            down: optional_section_name(alloc, plant, *down)?,
            up: optional_section_name(alloc, plant, *up)?,
            board_down: optional_board_name(alloc, plant, *board_down)?,
            board_up: optional_board_name(alloc, plant, *board_up)?,
        }),
        Section::Point {
            stem,
            plus,
            minus,
            faces,
        } => Ok(KindDraft::Point {
            stem: section_name(alloc, plant, *stem)?,
            plus: section_name(alloc, plant, *plus)?,
            minus: section_name(alloc, plant, *minus)?,
            faces: *faces,
        }),
    }
}

fn section_draft(
    alloc: Global,
    plant: &Plant,
    x: u32,
    section: &Section,
) -> Result<SectionDraft, AllocError>
    ensures { IfOk result (λ draft. draft ≡ section_draft plant.now x section.now) }
{
    Ok(SectionDraft {
        name: section_name(alloc, plant, x)?,
        kind: kind_draft(alloc, plant, section)?,
    })
}

/// Returns the plant's network as a draft, independent of its routes: its sections in order, with
/// their names and those of their neighbours and boards. It equals the draft from which the plant
/// was created (theorem `plant_gives_back_network_draft`). Fails only if memory runs out.
pub fn network_draft(alloc: Global, plant: &Plant) -> Result<NetDraft, AllocError>
    ensures { IfOk result (λ net. net ≡ network_draft plant.now) }
{
    let mut sections = Row::new(alloc);
    for x in 0..plant.sections() {
        sections.push(section_draft(alloc, plant, x, plant.section(x))?)?;
    }
    Ok(NetDraft { sections })
}
