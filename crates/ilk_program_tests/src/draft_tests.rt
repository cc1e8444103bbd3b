//! The drafts of a configuration, or its first fault of form.
use ilk_net_read::{Form, FormError, FormFault, Place, read_value};
use ilk_table_read::{read_net_and_table_drafts, read_table};
use std::test::*;

const BARE: &str = r#"{"version":1,
 "sections":[
  {"name":"a","kind":"linear","down":null,"up":"b","board_down":null,"board_up":null},
  {"name":"b","kind":"linear","down":"a","up":null,"board_down":null,"board_up":null}],
 "routes":[]}"#;

const PROTECTED: &str = r#"{"version":2,
 "sections":[
  {"name":"a","kind":"linear","down":null,"up":"b","board_down":null,"board_up":"m1"},
  {"name":"b","kind":"linear","down":"a","up":null,"board_down":"m2","board_up":null}],
 "routes":[
  {"name":"r1","source":"m1","destination":null,"path":["b"],"overlap":[],"points":[],"conflicts":["r2"],
   "protecting_points":[{"point":"p","position":"minus"}],"protecting_boards":["m2","m3"]}]}"#;

const ROUTED: &str = r#"{"version":1,
 "sections":[
  {"name":"a","kind":"linear","down":null,"up":"b","board_down":null,"board_up":"m1"},
  {"name":"b","kind":"linear","down":"a","up":null,"board_down":"m2","board_up":null}],
 "routes":[
  {"name":"r1","source":"m1","destination":null,"path":["b"],"overlap":[],
   "points":[{"point":"p","position":"minus"}],"conflicts":["r2"]},
  {"name":"r2","source":"m2","destination":null,"path":["a"],"overlap":[],"points":[],"conflicts":[]}]}"#;

#[test]
fn drafts(rt: HostRuntime) -> Result<(), Fail> {
    let (net, table) = read_net_and_table_drafts(rt.alloc(), ROUTED.as_bytes())
        .ok()
        .ok_or("the form is right")?;
    assert_eq!(rt; net.sections.len(), 2);
    assert_eq!(rt; table.routes.len(), 2);
    if let Some(route) = table.routes.as_slice().first() {
        assert_eq!(rt; route.source.as_str(), "m1");
        assert_eq!(rt; route.points.len(), 1);
        assert_eq!(rt; route.conflicts.len(), 1);
    }
    Ok(())
}

#[test]
fn protection(rt: HostRuntime) -> Result<(), Fail> {
    let value = read_value(rt.alloc(), PROTECTED.as_bytes())
        .ok()
        .ok_or("the text is JSON")?;
    let table = read_table(rt.alloc(), &value)
        .ok()
        .ok_or("its table is right")?;
    assert_eq!(rt; table.routes.len(), 1);
    if let Some(route) = table.routes.as_slice().first() {
        assert_eq!(rt; route.protecting_points.len(), 1);
        assert_eq!(rt; route.protecting_boards.len(), 2);
    }
    Ok(())
}

fn fault(rule: Form, place: Place) -> Option<FormFault> {
    Some(FormFault { rule, place })
}

fn fault_of(rt: &HostRuntime, text: &[u8]) -> Option<FormFault> {
    match read_net_and_table_drafts(rt.alloc(), text) {
        Err(FormError::Fault(fault)) => Some(fault),
        _ => None,
    }
}

#[test]
fn first_faults(rt: HostRuntime) {
    let document = Place::Document;
    let cases = [
        (BARE, None),
        (ROUTED, None),
        ("", fault(Form::F2, document)),
        ("[1,]", fault(Form::F2, document)),
        ("{}", fault(Form::F3, document)),
        (
            r#"{"version":"1","sections":[],"routes":[]}"#,
            fault(Form::F3, document),
        ),
        (
            r#"{"version":1.0,"sections":[],"routes":[]}"#,
            fault(Form::F3, document),
        ),
        (
            r#"{"version":-0,"sections":[],"routes":[]}"#,
            fault(Form::F3, document),
        ),
        (
            r#"{"version":18446744073709551616,"sections":[],"routes":[]}"#,
            fault(Form::F3, document),
        ),
        (
            r#"{"version":18446744073709551615,"sections":[],"routes":[]}"#,
            fault(Form::F4, document),
        ),
        (
            r#"{"version":3,"sections":[],"routes":[]}"#,
            fault(Form::F4, document),
        ),
        (
            r#"{"version":2,"sections":[],"routes":[]}"#,
            fault(Form::F6, document),
        ),
        (
            r#"{"version":1,"sections":[],"routes":[1]}"#,
            fault(Form::F6, document),
        ),
        (
            r#"{"version":1,"sections":[1],"routes":[1]}"#,
            fault(Form::F3, Place::Section(0)),
        ),
        (
            r#"{"version":1,"sections":[{"name":"a b","kind":"point","faces":"up","stem":"s","plus":"p","minus":"m"},7],"routes":[]}"#,
            fault(Form::F5, Place::Section(0)),
        ),
        (
            r#"{"version":1,"sections":[{"name":"a b","kind":"point","faces":"left","stem":"s","plus":"p","minus":"m"}],"routes":[]}"#,
            fault(Form::F3, Place::Section(0)),
        ),
    ];
    for (text, want) in cases {
        assert_eq!(rt; fault_of(&rt, text.as_bytes()), want, "at {text}");
    }
    assert_eq!(rt; fault_of(&rt, b"\"\xff\""), fault(Form::F2, document));
}
