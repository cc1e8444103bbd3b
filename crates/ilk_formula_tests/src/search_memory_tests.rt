use ilk_arena::Arena;
use ilk_base::Row;
use ilk_cnf::Lit;
use ilk_log::{Hints, Log, Step, read_step, write_step};
use std::alloc::{AllocError, Global};
use std::test::Fail;

fn empty_line(alloc: Global) -> Result<Vec<u8>, AllocError> {
    let step = Step {
        clause: Row::new(alloc),
        hints: Hints::new(alloc),
    };
    write_step(alloc, &step)
}

// Returns the line of a step with two literals and two hints.
fn full_line(alloc: Global) -> Result<Vec<u8>, AllocError> {
    let mut clause = Row::new(alloc);
    clause.push(Lit::new(12, true))?;
    clause.push(Lit::new(3, false))?;
    let mut hints = Hints::new(alloc);
    hints.push(1)?;
    hints.push(400)?;
    write_step(alloc, &Step { clause, hints })
}

#[test]
fn lines_of_steps(rt: HostRuntime) -> Result<(), Fail> {
    let alloc = rt.alloc();
    assert_eq!(rt; empty_line(alloc)?.as_slice(), b"step 0 0".as_slice());
    assert_eq!(rt;
        full_line(alloc)?.as_slice(),
        b"step 12 -3 0 1 400 0".as_slice()
    );
    for (line, is_step) in [
        ("step 0 0", true),
        ("step 12 -3 0 1 400 0", true),
        ("", false),
        ("steps 0 0", false),
        ("step", false),
        ("step 0", false),
        ("step 1 x 0 0", false),
        ("step 1 0 x 0", false),
        ("step 0 0 0", false),
    ] {
        let step = read_step(alloc, line.as_bytes())?;
        assert_eq!(rt; step.is_some(), is_step, "at {line}");
    }
    Ok(())
}

// Returns the line of a step after it was kept in a log, or `none`.
fn kept_line(alloc: Global, line: &str) -> Result<Vec<u8>, AllocError> {
    let Some(step) = read_step(alloc, line.as_bytes())? else {
        return Vec::from_slice(alloc, b"none".as_slice());
    };
    let mut log = Log::new(alloc);
    log.push(step)?;
    let kept = log.at(0)?;
    write_step(alloc, &kept)
}

#[test]
fn kept_steps(rt: HostRuntime) -> Result<(), Fail> {
    let alloc = rt.alloc();
    for line in [
        "step 0 0",
        "step -12 3 0 4294967306 4294967300 0",
        "step 4611686018427387904 -1 -4611686018427387904 1 0 18446744073709551615 1 9223372036854775808 0",
    ] {
        assert_eq!(rt;
            kept_line(alloc, line)?.as_slice(),
            line.as_bytes(),
            "at {line}"
        );
    }
    Ok(())
}

#[test]
fn arenas(rt: HostRuntime) -> Result<(), Fail> {
    let alloc = rt.alloc();
    for vars in [0, 5] {
        let mut arena = Arena::new(alloc, vars)?;
        arena.reserve(0)?;
        arena.reserve(100)?;
    }
    Ok(())
}
