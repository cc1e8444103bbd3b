use crate::changes::Change::{self, Locks, Open, Point, Route, Train};
use crate::changes::start_with_changes;
use crate::forms::{
    PlantForms, compare_forms_with_state, decode_state_if_wellformed, expect_violated_families,
    forms_of, is_hazardous,
};
use crate::plants::{image_of, plant_from_configuration};
use crate::texts::{station, two_sections_without_boards};
use ilk_ir::{Values, holds};
use ilk_plant::Dir::{self, Down, Up};
use ilk_plant::Hold::{Locked, Used};
use ilk_plant::Lie::{Moving, Plus as AtPlus};
use ilk_plant::Mode::{Allocating, Free, Locked as Set, Occupied};
use ilk_plant::Position::{Minus, Plus};
use ilk_plant::{Plant, State, Train as TrainState};
use std::alloc::{AllocError, Global};
use std::test::Fail;

// The sections of the station are b1 0, p1 1, t1 2, t2 3, p2 4 and b2 5. The route r1 0 leads from
// b1 over p1 to t1, r3 2 from t1 over p2 to b2, r7 6 from t1 over p1 to b1. The board of r1 is 0,
// that of r3 is 2.

// Compares the forms with the initial state under these changes, which breaks these families.
fn breaks(alloc: Global, changes: &[Change], families: &[u8]) -> Result<(), Fail> {
    let plant = plant_from_configuration(alloc, station())?;
    breaks_on(alloc, &plant, changes, families)
}

fn breaks_on(
    alloc: Global,
    plant: &Plant,
    changes: &[Change],
    families: &[u8],
) -> Result<(), Fail> {
    let forms = forms_of(alloc, plant)?;
    let s = start_with_changes(alloc, plant, changes)?;
    compare_broken(alloc, plant, &forms, &s, families)
}

fn compare_broken(
    alloc: Global,
    plant: &Plant,
    forms: &PlantForms,
    s: &State,
    families: &[u8],
) -> Result<(), Fail> {
    compare_forms_with_state(alloc, plant, forms, s)?;
    let values = image_of(alloc, plant, s)?;
    expect_violated_families(alloc, forms, &values, families)
}

const LOCKED: Change = Locks(Locked, &[1, 2]);

#[test]
fn counts(rt: HostRuntime) -> Result<(), Fail> {
    breaks(rt.alloc(), &[Route(0, Free, 1, 0)], &[1])?;
    breaks(rt.alloc(), &[Route(0, Occupied, 2, 2)], &[1])?;
    breaks(rt.alloc(), &[Route(0, Occupied, 0, 0), LOCKED], &[1])
}

#[test]
fn held_sections(rt: HostRuntime) -> Result<(), Fail> {
    let two = [
        Route(0, Allocating, 0, 0),
        Route(6, Allocating, 0, 0),
        Locks(Locked, &[0, 1, 2]),
    ];
    breaks(rt.alloc(), &two, &[2])?;
    breaks(rt.alloc(), &[Route(0, Allocating, 0, 0)], &[3])?;
    breaks(rt.alloc(), &[Route(0, Occupied, 1, 0), LOCKED], &[3])?;
    breaks(
        rt.alloc(),
        &[Route(0, Allocating, 0, 0), LOCKED, Train(Up, &[2])],
        &[4],
    )
}

#[test]
fn open_boards(rt: HostRuntime) -> Result<(), Fail> {
    breaks(rt.alloc(), &[Open(0)], &[5])?;
    breaks(
        rt.alloc(),
        &[Route(0, Set, 0, 0), LOCKED, Open(0), Train(Up, &[2])],
        &[5],
    )?;
    breaks(
        rt.alloc(),
        &[Route(0, Set, 0, 0), LOCKED, Open(0), Train(Up, &[0, 1])],
        &[5, 7],
    )
}

#[test]
fn listed_points(rt: HostRuntime) -> Result<(), Fail> {
    breaks(
        rt.alloc(),
        &[Route(0, Allocating, 0, 0), LOCKED, Point(0, AtPlus, Minus)],
        &[6],
    )?;
    breaks(
        rt.alloc(),
        &[Route(0, Set, 0, 0), LOCKED, Point(0, Moving, Plus)],
        &[6],
    )
}

#[test]
fn trains_on_their_way(rt: HostRuntime) -> Result<(), Fail> {
    let met = [
        Route(0, Occupied, 1, 0),
        LOCKED,
        Locks(Used, &[1]),
        Train(Up, &[1]),
        Train(Down, &[2]),
    ];
    breaks(rt.alloc(), &[Train(Up, &[0, 1])], &[7, 8])?;
    breaks(rt.alloc(), &met, &[7])?;
    breaks(
        rt.alloc(),
        &[
            Route(0, Occupied, 2, 0),
            Locks(Used, &[1, 2]),
            Train(Up, &[1]),
        ],
        &[7],
    )?;
    breaks(
        rt.alloc(),
        &[
            Route(0, Occupied, 2, 1),
            Locks(Used, &[2]),
            Train(Up, &[1, 2]),
        ],
        &[8],
    )
}

#[test]
fn protecting_boards(rt: HostRuntime) -> Result<(), Fail> {
    let sections = Locks(Locked, &[1, 2, 4, 5]);
    let r1 = Route(0, Set, 0, 0);
    breaks(
        rt.alloc(),
        &[r1, Route(2, Set, 0, 0), sections, Open(0), Open(2)],
        &[9],
    )?;
    let used = Locks(Used, &[4]);
    breaks(
        rt.alloc(),
        &[
            r1,
            Route(2, Occupied, 1, 0),
            sections,
            used,
            Open(0),
            Train(Up, &[4]),
        ],
        &[],
    )
}

// Compares the forms with the initial state under these changes, which has a hazard.
fn has_hazard(alloc: Global, changes: &[Change]) -> Result<(), Fail> {
    let plant = plant_from_configuration(alloc, station())?;
    has_hazard_on(alloc, &plant, changes)
}

fn has_hazard_on(alloc: Global, plant: &Plant, changes: &[Change]) -> Result<(), Fail> {
    let forms = forms_of(alloc, plant)?;
    let s = start_with_changes(alloc, plant, changes)?;
    if is_hazardous(plant, &s) {
        compare_forms_with_state(alloc, plant, &forms, &s)
    } else {
        Err(Fail::new("a state without hazard"))
    }
}

// Two trains in one section; a train on moving points; a train over the leg for which the points
// are not set.
#[test]
fn hazards_stand(rt: HostRuntime) -> Result<(), Fail> {
    has_hazard(rt.alloc(), &[Train(Up, &[2]), Train(Down, &[2])])?;
    has_hazard(rt.alloc(), &[Train(Up, &[1, 2]), Train(Up, &[0, 1])])?;
    has_hazard(rt.alloc(), &[Point(0, Moving, Plus), Train(Up, &[1])])?;
    has_hazard(
        rt.alloc(),
        &[Point(0, Moving, Minus), Train(Down, &[3, 1, 0])],
    )?;
    has_hazard(rt.alloc(), &[Train(Up, &[0, 1, 3])])
}

fn values_of(alloc: Global, numbers: &[u8]) -> Result<Values, AllocError> {
    let mut values = Values::new(alloc);
    for number in numbers {
        values.push(*number)?;
    }
    Ok(values)
}

fn forms_hold(forms: &PlantForms, values: &Values) -> [bool; 3] {
    [
        holds(&forms.hazard, values),
        holds(&forms.wellformed, values),
        holds(&forms.start, values),
    ]
}

// Checks which forms hold over values of the bare line: `hold` gives the hazard, well-formed and
// initial-state forms, and `families` the families whose forms fail.
fn row(alloc: Global, numbers: &[u8], hold: [bool; 3], families: &[u8]) -> Result<(), Fail> {
    let plant = plant_from_configuration(alloc, two_sections_without_boards())?;
    row_on(alloc, &plant, numbers, hold, families)
}

fn row_on(
    alloc: Global,
    plant: &Plant,
    numbers: &[u8],
    hold: [bool; 3],
    families: &[u8],
) -> Result<(), Fail> {
    let forms = forms_of(alloc, plant)?;
    let values = values_of(alloc, numbers)?;
    if forms_hold(&forms, &values) == hold {
        expect_violated_families(alloc, &forms, &values, families)
    } else {
        Err(Fail::new("other forms hold"))
    }
}

#[test]
fn values_of_the_bare_line(rt: HostRuntime) -> Result<(), Fail> {
    row(rt.alloc(), &[0, 0, 0, 0], [false, true, true], &[])?;
    row(rt.alloc(), &[0, 0, 3, 2], [false, true, false], &[8])?;
    row(rt.alloc(), &[0, 0, 3, 0], [false, false, false], &[8])?;
    row(rt.alloc(), &[0, 0, 3, 9], [true, false, false], &[8])?;
    row(rt.alloc(), &[0, 0, 4, 0], [false, true, false], &[7, 8])
}

fn compare_train(trains: &[TrainState], dir: Dir, body: &[u32]) -> Result<(), Fail> {
    match trains {
        [train] if train.dir == dir && train.body.as_slice() == body => Ok(()),
        _ => Err(Fail::new("other trains")),
    }
}

// Reads values of the bare line, and compares the only train of the state.
fn train_read(alloc: Global, numbers: &[u8], dir: Dir, body: &[u32]) -> Result<(), Fail> {
    let plant = plant_from_configuration(alloc, two_sections_without_boards())?;
    train_read_on(alloc, &plant, numbers, dir, body)
}

fn train_read_on(
    alloc: Global,
    plant: &Plant,
    numbers: &[u8],
    dir: Dir,
    body: &[u32],
) -> Result<(), Fail> {
    let values = values_of(alloc, numbers)?;
    match decode_state_if_wellformed(alloc, plant, &values)? {
        None => Err(Fail::new("values of no state")),
        Some(s) => compare_train(s.trains.as_slice(), dir, body),
    }
}

#[test]
fn trains_are_read(rt: HostRuntime) -> Result<(), Fail> {
    train_read(rt.alloc(), &[0, 0, 3, 2], Up, &[0, 1])?;
    train_read(rt.alloc(), &[0, 0, 6, 7], Down, &[1, 0])
}
