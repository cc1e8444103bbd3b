//! The form of a network.
use ilk_net_read::{read_network, read_value};
use ilk_plant::KindDraft;
use std::test::*;

const LINE: &str = r#"{"version":1,
 "sections":[
  {"name":"a","kind":"linear","down":null,"up":"p","board_down":null,"board_up":"m1"},
  {"name":"p","kind":"point","faces":"up","stem":"a","plus":"b","minus":"c"},
  {"name":"b","kind":"linear","down":"p","up":null,"board_down":null,"board_up":null},
  {"name":"c","kind":"linear","down":"p","up":null,"board_down":null,"board_up":null}],
 "routes":[]}"#;

#[test]
fn line_with_a_point(rt: HostRuntime) -> Result<(), Fail> {
    let value = read_value(rt.alloc(), LINE.as_bytes())
        .ok()
        .ok_or("the text is JSON")?;
    let net = read_network(rt.alloc(), &value)
        .ok()
        .ok_or("its network is right")?;
    let sections = net.sections.as_slice();
    assert_eq!(rt; sections.len(), 4);
    if let Some(section) = sections.get(1) {
        assert_eq!(rt; section.name.as_str(), "p");
        if let KindDraft::Point { stem, minus, .. } = &section.kind {
            assert_eq!(rt; stem.as_str(), "a");
            assert_eq!(rt; minus.as_str(), "c");
        } else {
            assert!(rt; false, "a point");
        }
    }
    Ok(())
}
