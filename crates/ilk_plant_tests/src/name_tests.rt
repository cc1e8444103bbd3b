use crate::plants::plant_from_configuration;
use crate::texts::line;
use std::test::Fail;

// Sections, boards and routes are found by name, each kind separately.
#[test]
fn names_of_a_line(rt: HostRuntime) -> Result<(), Fail> {
    let plant = plant_from_configuration(rt.alloc(), line())?;
    assert_eq!(rt; plant.section_named("b"), Some(1));
    assert_eq!(rt; plant.board_named("m1"), Some(0));
    assert_eq!(rt; plant.board_named("m2"), Some(1));
    assert_eq!(rt; plant.route_named("r2"), Some(1));
    for name in ["a", "r1", "m", "m22", ""] {
        assert_eq!(rt; plant.board_named(name), None, "no board is named {name}");
    }
    Ok(())
}
