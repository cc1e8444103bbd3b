use crate::plants::plant_from_configuration;
use crate::texts::{line, route_ending_without_board, two_sections_without_boards};
use ilk_engine::{Verdict, decide};
use ilk_plant::Plant;
use std::alloc::Global;
use std::test::Fail;

fn verdict_name(alloc: Global, verdict: &Verdict) -> Result<String, Fail> {
    Ok(match verdict {
        Verdict::Safe { k } => format!(in alloc; "safe from {k} events on")?,
        Verdict::Unsafe { events, hazard } => format!(in alloc;
            "{hazard:?} by {} events",
            events.len()
        )?,
        Verdict::Breach { events, family } => format!(in alloc;
            "V{family} broken by {} events",
            events.len()
        )?,
        Verdict::NotInductive { events, .. } => format!(in alloc;
            "left by {} events",
            events.len()
        )?,
        Verdict::Spent => String::from_str(alloc, "spent")?,
    })
}

// Returns the verdict on a plant in words, with ample conflicts.
fn answer(alloc: Global, plant: &Plant, depth: u32) -> Result<String, Fail> {
    if depth == 0 || depth > 16 {
        return Err(Fail::new("no depth"));
    }
    let found = decide(alloc, plant, depth, 100000)?;
    verdict_name(alloc, &found.verdict)
}

// Fails unless the verdict is one of these two.
fn compare_answer(
    alloc: Global,
    plant: &Plant,
    depth: u32,
    first: &str,
    second: &str,
) -> Result<(), Fail> {
    let found = answer(alloc, plant, depth)?;
    if found.as_str() == first || found.as_str() == second {
        Ok(())
    } else {
        Err(Fail::new("another verdict"))
    }
}

fn is_answered(
    alloc: Global,
    text: &str,
    depth: u32,
    first: &str,
    second: &str,
) -> Result<(), Fail> {
    let plant = plant_from_configuration(alloc, text)?;
    compare_answer(alloc, &plant, depth, first, second)
}

#[test]
fn verdicts(rt: HostRuntime) -> Result<(), Fail> {
    let safe = "safe from 1 events on";
    is_answered(rt.alloc(), line(), 4, safe, "")?;
    is_answered(
        rt.alloc(),
        two_sections_without_boards(),
        2,
        "V7 broken by 1 events",
        "",
    )?;
    is_answered(
        rt.alloc(),
        two_sections_without_boards(),
        4,
        "Two(0) by 3 events",
        "Two(1) by 3 events",
    )?;
    is_answered(
        rt.alloc(),
        route_ending_without_board(),
        4,
        "left by 4 events",
        "",
    )
}
