//! Stations in a row as a configuration. Each is a loop of two tracks between two points; single
//! lines join them. There are 5 sections and 8 routes for each station, and one more section.
//!
//! The text is built from pieces, in which `#` is the station's number, `<` the number before and
//! `>` the number after it.

use std::alloc::{AllocError, Global};

// The text before the first station.
const HEAD: &str = r##"{"version":1,"sections":[
 {"name":"l0","kind":"linear","down":null,"up":"p1","board_down":null,"board_up":"l0U"}"##;

// The points and tracks of a station.
const LOOP: &str = r##",
 {"name":"p#","kind":"point","faces":"up","stem":"l<","plus":"t#","minus":"u#"},
 {"name":"t#","kind":"linear","down":"p#","up":"q#","board_down":"t#D","board_up":"t#U"},
 {"name":"u#","kind":"linear","down":"p#","up":"q#","board_down":"u#D","board_up":"u#U"},
 {"name":"q#","kind":"point","faces":"down","stem":"l#","plus":"t#","minus":"u#"}"##;

// The line from a station to the next one.
const LINE: &str = r##",
 {"name":"l#","kind":"linear","down":"q#","up":"p>","board_down":"l#D","board_up":"l#U"}"##;

// The line behind the last station.
const LAST_LINE: &str = r##",
 {"name":"l#","kind":"linear","down":"q#","up":null,"board_down":"l#D","board_up":null}"##;

// The routes into a station up.
const IN_UP: &str = r##"
 {"name":"s#r1","source":"l<U","destination":"t#U","path":["p#","t#"],"overlap":[],
  "points":[{"point":"p#","position":"plus"}],"conflicts":["s#r2","s#r5","s#r7","s#r8"]},
 {"name":"s#r2","source":"l<U","destination":"u#U","path":["p#","u#"],"overlap":[],
  "points":[{"point":"p#","position":"minus"}],"conflicts":["s#r1","s#r6","s#r7","s#r8"]},"##;

// The routes out of a station up, if another follows.
const OUT_UP: &str = r##"
 {"name":"s#r3","source":"t#U","destination":"l#U","path":["q#","l#"],"overlap":[],
  "points":[{"point":"q#","position":"plus"}],"conflicts":["s#r4","s#r5","s#r6","s>r7","s>r8"]},
 {"name":"s#r4","source":"u#U","destination":"l#U","path":["q#","l#"],"overlap":[],
  "points":[{"point":"q#","position":"minus"}],"conflicts":["s#r3","s#r5","s#r6","s>r7","s>r8"]},"##;

const LAST_OUT_UP: &str = r##"
 {"name":"s#r3","source":"t#U","destination":null,"path":["q#","l#"],"overlap":[],
  "points":[{"point":"q#","position":"plus"}],"conflicts":["s#r4","s#r5","s#r6"]},
 {"name":"s#r4","source":"u#U","destination":null,"path":["q#","l#"],"overlap":[],
  "points":[{"point":"q#","position":"minus"}],"conflicts":["s#r3","s#r5","s#r6"]},"##;

// The routes into a station down.
const IN_DOWN: &str = r##"
 {"name":"s#r5","source":"l#D","destination":"t#D","path":["q#","t#"],"overlap":[],
  "points":[{"point":"q#","position":"plus"}],"conflicts":["s#r1","s#r3","s#r4","s#r6"]},
 {"name":"s#r6","source":"l#D","destination":"u#D","path":["q#","u#"],"overlap":[],
  "points":[{"point":"q#","position":"minus"}],"conflicts":["s#r2","s#r3","s#r4","s#r5"]},"##;

// The routes out of a station down, if another precedes it.
const OUT_DOWN: &str = r##"
 {"name":"s#r7","source":"t#D","destination":"l<D","path":["p#","l<"],"overlap":[],
  "points":[{"point":"p#","position":"plus"}],"conflicts":["s<r3","s<r4","s#r1","s#r2","s#r8"]},
 {"name":"s#r8","source":"u#D","destination":"l<D","path":["p#","l<"],"overlap":[],
  "points":[{"point":"p#","position":"minus"}],"conflicts":["s<r3","s<r4","s#r1","s#r2","s#r7"]}"##;

const FIRST_OUT_DOWN: &str = r##"
 {"name":"s#r7","source":"t#D","destination":null,"path":["p#","l<"],"overlap":[],
  "points":[{"point":"p#","position":"plus"}],"conflicts":["s#r1","s#r2","s#r8"]},
 {"name":"s#r8","source":"u#D","destination":null,"path":["p#","l<"],"overlap":[],
  "points":[{"point":"p#","position":"minus"}],"conflicts":["s#r1","s#r2","s#r7"]}"##;

fn push_piece(text: &mut String, piece: &str, number: u32) -> Result<(), AllocError> {
    for c in piece.chars() {
        match c {
            '#' => write!(text, "{number}")?,
            '<' => write!(text, "{}", number.saturating_sub(1))?,
            '>' => write!(text, "{}", number.saturating_add(1))?,
            _ => text.push(c)?,
        }
    }
    Ok(())
}

fn push_sections(text: &mut String, number: u32, count: u32) -> Result<(), AllocError> {
    push_piece(text, LOOP, number)?;
    push_piece(text, if number < count { LINE } else { LAST_LINE }, number)
}

fn push_routes(text: &mut String, number: u32, count: u32) -> Result<(), AllocError> {
    push_piece(text, IN_UP, number)?;
    push_piece(
        text,
        if number < count { OUT_UP } else { LAST_OUT_UP },
        number,
    )?;
    push_piece(text, IN_DOWN, number)?;
    push_piece(
        text,
        if number > 1 { OUT_DOWN } else { FIRST_OUT_DOWN },
        number,
    )
}

/// Returns the configuration of `count` stations in a row, at least one.
pub(crate) fn stations(alloc: Global, count: u32) -> Result<String, AllocError> {
    let mut text = String::from_str(alloc, HEAD)?;
    for number in 1..=count {
        push_sections(&mut text, number, count)?;
    }
    text.push_str("],\"routes\":[")?;
    for number in 1..=count {
        text.push_str(if number > 1 { "," } else { "" })?;
        push_routes(&mut text, number, count)?;
    }
    text.push_str("]}")?;
    Ok(text)
}
