use crate::row_tests::formula;
use ilk_cnf::Lit;
use ilk_dimacs::write_dimacs;
use ilk_log::{read_step, write_step};
use ilk_rup::{Rup, check_rup};
use std::alloc::{AllocError, Global};
use std::test::Fail;

#[test]
fn the_text_of_four_clauses(rt: HostRuntime) -> Result<(), Fail> {
    let text = write_dimacs(rt.alloc(), &formula(rt.alloc(), 4)?)?;
    assert_eq!(rt;
        text.as_slice(),
        b"p cnf 2 4\n1 2 0\n1 -2 0\n-1 2 0\n-1 -2 0\n".as_slice()
    );
    Ok(())
}

// Returns the line of the step that a line is read as, or `none`.
fn rewritten(alloc: Global, line: &str) -> Result<Vec<u8>, AllocError> {
    let Some(step) = read_step(alloc, line.as_bytes())? else {
        return Vec::from_slice(alloc, b"none".as_slice());
    };
    write_step(alloc, &step)
}

// A number has no leading zero, and the hints end with a 0.
#[test]
fn lines_read_and_written(rt: HostRuntime) -> Result<(), Fail> {
    for (line, written) in [
        ("step 01 0 1 0", "none"),
        ("step 1 0 1 2", "none"),
        ("step 1 0 1 2 0", "step 1 0 1 2 0"),
    ] {
        assert_eq!(rt;
            rewritten(rt.alloc(), line)?.as_slice(),
            written.as_bytes(),
            "at {line}"
        );
    }
    Ok(())
}

#[test]
fn the_step_of_a_line(rt: HostRuntime) -> Result<(), Fail> {
    let Some(step) = read_step(rt.alloc(), b"step 1 0 1 2 0".as_slice())? else {
        return Err(Fail::new("a line that is no step"));
    };
    let clause = step.clause.as_slice();
    assert_eq!(rt; clause.len(), 1);
    assert!(rt; clause.iter().all(|l| l.is_same(Lit::new(1, true))));
    assert_eq!(rt; step.hints.as_slice(), [1, 2].as_slice());
    Ok(())
}

fn judged(alloc: Global, text: &str) -> Result<String, AllocError> {
    match check_rup(alloc, &formula(alloc, 4)?, text.as_bytes())? {
        Rup::Refuted(_) => String::from_str(alloc, "refuted"),
        Rup::Bad { item } => format!(in alloc; "bad item {item}"),
    }
}

#[test]
fn refutations_of_four_clauses(rt: HostRuntime) -> Result<(), Fail> {
    for (text, answer) in [
        ("1 0 0", "refuted"),
        ("d 1 2 0 1 0", "refuted"),
        ("1 -1 0 1 0", "refuted"),
        ("", "bad item 1"),
        ("3 0", "bad item 1"),
        ("1 0 2", "bad item 2"),
    ] {
        let said = judged(rt.alloc(), text)?;
        assert_eq!(rt; said.as_str(), answer, "at {text}");
    }
    Ok(())
}
