//! Configurations of the tests' plants. Each is in its own function and proved once: a long text
//! makes a function's proof long.

/// Returns the configuration of two sections without boards and routes.
pub(crate) fn two_sections_without_boards() -> &'static str {
    r#"{"version":1,
 "sections":[
  {"name":"a","kind":"linear","down":null,"up":"b","board_down":null,"board_up":null},
  {"name":"b","kind":"linear","down":"a","up":null,"board_down":null,"board_up":null}],
 "routes":[]}"#
}

/// Returns the configuration of two sections with a route each way.
pub(crate) fn line() -> &'static str {
    r#"{"version":1,
 "sections":[
  {"name":"a","kind":"linear","down":null,"up":"b","board_down":null,"board_up":"m1"},
  {"name":"b","kind":"linear","down":"a","up":null,"board_down":"m2","board_up":null}],
 "routes":[
  {"name":"r1","source":"m1","destination":null,"path":["b"],"overlap":[],"points":[],"conflicts":[]},
  {"name":"r2","source":"m2","destination":null,"path":["a"],"overlap":[],"points":[],"conflicts":[]}]}"#
}

/// Returns the configuration of three sections whose only route ends in the middle, without a
/// board.
pub(crate) fn route_ending_without_board() -> &'static str {
    r#"{"version":1,
 "sections":[
  {"name":"a","kind":"linear","down":null,"up":"b","board_down":null,"board_up":"m1"},
  {"name":"b","kind":"linear","down":"a","up":"c","board_down":null,"board_up":null},
  {"name":"c","kind":"linear","down":"b","up":null,"board_down":"m2","board_up":null}],
 "routes":[
  {"name":"r1","source":"m1","destination":null,"path":["b"],"overlap":[],"points":[],"conflicts":[]}]}"#
}

/// Returns the configuration of a passing loop with eight routes. The board m1 protects the route
/// r3, and the point p2 the route r8.
pub(crate) fn station() -> &'static str {
    r#"{"version":2,
 "sections":[
  {"name":"b1","kind":"linear","down":null,"up":"p1","board_down":null,"board_up":"m1"},
  {"name":"p1","kind":"point","faces":"up","stem":"b1","plus":"t1","minus":"t2"},
  {"name":"t1","kind":"linear","down":"p1","up":"p2","board_down":"m4","board_up":"m3"},
  {"name":"t2","kind":"linear","down":"p1","up":"p2","board_down":"m6","board_up":"m5"},
  {"name":"p2","kind":"point","faces":"down","stem":"b2","plus":"t1","minus":"t2"},
  {"name":"b2","kind":"linear","down":"p2","up":null,"board_down":"m2","board_up":null}],
 "routes":[
  {"name":"r1","source":"m1","destination":"m3","path":["p1","t1"],"overlap":[],"points":[{"point":"p1","position":"plus"}],"conflicts":["r2","r5","r7","r8"],"protecting_points":[],"protecting_boards":[]},
  {"name":"r2","source":"m1","destination":"m5","path":["p1","t2"],"overlap":[],"points":[{"point":"p1","position":"minus"}],"conflicts":["r1","r6","r7","r8"],"protecting_points":[],"protecting_boards":[]},
  {"name":"r3","source":"m3","destination":null,"path":["p2","b2"],"overlap":[],"points":[{"point":"p2","position":"plus"}],"conflicts":["r4","r5","r6"],"protecting_points":[],"protecting_boards":["m1"]},
  {"name":"r4","source":"m5","destination":null,"path":["p2","b2"],"overlap":[],"points":[{"point":"p2","position":"minus"}],"conflicts":["r3","r5","r6"],"protecting_points":[],"protecting_boards":[]},
  {"name":"r5","source":"m2","destination":"m4","path":["p2","t1"],"overlap":[],"points":[{"point":"p2","position":"plus"}],"conflicts":["r1","r3","r4","r6"],"protecting_points":[],"protecting_boards":[]},
  {"name":"r6","source":"m2","destination":"m6","path":["p2","t2"],"overlap":[],"points":[{"point":"p2","position":"minus"}],"conflicts":["r2","r3","r4","r5"],"protecting_points":[],"protecting_boards":[]},
  {"name":"r7","source":"m4","destination":null,"path":["p1","b1"],"overlap":[],"points":[{"point":"p1","position":"plus"}],"conflicts":["r1","r2","r8"],"protecting_points":[],"protecting_boards":[]},
  {"name":"r8","source":"m6","destination":null,"path":["p1","b1"],"overlap":[],"points":[{"point":"p1","position":"minus"}],"conflicts":["r1","r2","r7"],"protecting_points":[{"point":"p2","position":"plus"}],"protecting_boards":[]}]}"#
}
