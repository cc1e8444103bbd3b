//! The rules of small networks: the check succeeds if memory suffices.
use crate::parts::text;
use ilk_net_check::check_network;
use ilk_plant::{Broken, KindDraft, MAX_SECTIONS, NetDraft, Row, Rule, SectionDraft, Text};
use std::alloc::{AllocError, Global};
use std::test::Fail;

// A linear section: its name, its neighbours down and up, and its boards for down and up.
#[derive(Clone, Copy)]
struct Linear {
    name: &'static str,
    down: Option<&'static str>,
    up: Option<&'static str>,
    boards: [Option<&'static str>; 2],
}

const NO_BOARDS: [Option<&'static str>; 2] = [None, None];

fn text_if(alloc: Global, name: Option<&'static str>) -> Result<Option<Text>, AllocError> {
    match name {
        Some(name) => Ok(Some(text(alloc, name)?)),
        None => Ok(None),
    }
}

// Returns the broken rules of a network of linear sections, or `None` if there are too many
// sections.
fn check(alloc: Global, lines: &[Linear]) -> Result<Option<Row<Broken>>, AllocError> {
    let mut sections = Row::new(alloc);
    for line in lines {
        let kind = KindDraft::Linear {
            down: text_if(alloc, line.down)?,
            up: text_if(alloc, line.up)?,
            board_down: text_if(alloc, line.boards[0])?,
            board_up: text_if(alloc, line.boards[1])?,
        };
        sections.push(SectionDraft {
            name: text(alloc, line.name)?,
            kind,
        })?;
    }
    if sections.len() > MAX_SECTIONS {
        return Ok(None);
    }
    Ok(Some(check_network(alloc, &NetDraft { sections })?))
}

fn at(rule: Rule, first: u32) -> Broken {
    Broken {
        rule,
        first,
        second: None,
    }
}

fn first(up: Option<&'static str>) -> Linear {
    Linear {
        name: "a",
        down: None,
        up,
        boards: [None, Some("m")],
    }
}

fn last() -> Linear {
    Linear {
        name: "b",
        down: Some("a"),
        up: None,
        boards: [Some("n"), None],
    }
}

fn plain(name: &'static str, down: Option<&'static str>, up: Option<&'static str>) -> Linear {
    Linear {
        name,
        down,
        up,
        boards: NO_BOARDS,
    }
}

#[test]
fn small_networks(rt: HostRuntime) -> Result<(), Fail> {
    let alloc = rt.alloc();
    let whole = check(alloc, &[first(Some("b")), last()])?.ok_or("too many")?;
    assert_eq!(rt; whole.len(), 0);
    let cut = check(alloc, &[first(None), last()])?.ok_or("too many")?;
    assert_eq!(rt;
        cut.as_slice(),
        [at(Rule::N5, 1), at(Rule::N6, 0), at(Rule::N8, 0)].as_slice()
    );
    let repeated = check(alloc, &[first(None), last(), plain("b", None, None)])?.ok_or("too many")?;
    let expected = [
        at(Rule::N1, 2),
        at(Rule::N5, 1),
        at(Rule::N6, 0),
        at(Rule::N6, 2),
        at(Rule::N8, 0),
    ];
    assert_eq!(rt; repeated.as_slice(), expected.as_slice());
    let ring = [
        plain("a", Some("c"), Some("b")),
        plain("b", Some("a"), Some("c")),
        plain("c", Some("b"), Some("a")),
    ];
    let ring = check(alloc, &ring)?.ok_or("too many")?;
    let expected = [at(Rule::N7, 0), at(Rule::N7, 1), at(Rule::N7, 2)];
    assert_eq!(rt; ring.as_slice(), expected.as_slice());
    Ok(())
}
