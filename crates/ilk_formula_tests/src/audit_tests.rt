use crate::row_tests::formula;
use ilk_audit::{Auditor, Taken, Why};
use ilk_log::read_step;
use std::alloc::Global;
use std::test::Fail;

fn taken_name(taken: Taken) -> &'static str {
    match taken {
        Taken::Good => " good",
        Taken::Closed => " closed",
        Taken::Bad(Why::BadHint) => " bad hint",
        Taken::Bad(Why::NotUnit) => " not unit",
        Taken::Bad(Why::NotFalse) => " not false",
        Taken::Bad(Why::BadLiteral) => " bad literal",
    }
}

// Returns the auditor's answer to the step of a line. A closed auditor takes none.
fn said_of(alloc: Global, auditor: &mut Auditor, line: &str) -> Result<&'static str, Fail> {
    let Some(step) = read_step(alloc, line.as_bytes())? else {
        return Err(Fail::new("a line that is no step"));
    };
    if auditor.closed() {
        return Err(Fail::new("a closed auditor"));
    }
    Ok(taken_name(auditor.take(&step)?))
}

fn said(alloc: Global, lines: &[&str]) -> Result<String, Fail> {
    let mut auditor = Auditor::new(alloc, &formula(alloc, 4)?)?;
    let mut text = String::new(alloc);
    for line in lines {
        text.push_str(said_of(alloc, &mut auditor, line)?)?;
    }
    Ok(text)
}

#[test]
fn steps_over_four_clauses(rt: HostRuntime) -> Result<(), Fail> {
    let alloc = rt.alloc();
    let refuted = said(alloc, &["step 1 0 1 2 0", "step 0 5 3 4 0"])?;
    assert_eq!(rt; refuted.as_str(), " good closed");
    for (line, answer) in [
        ("step 1 0 3 0", " not unit"),
        ("step 1 0 9 0", " bad hint"),
        ("step 1 0 1 0", " not false"),
        ("step 7 0 1 0", " bad literal"),
        ("step 0 1 0", " not unit"),
    ] {
        let one = said(alloc, &[line])?;
        assert_eq!(rt; one.as_str(), answer, "at {line}");
    }
    Ok(())
}
