//! Generates an interlocking table from a network. It has one route for each way: a candidate route
//! path from a marker board to the next board for its direction, or to the end of the track. The
//! table violates no rule of the table, and no rule of the columns except C7.
//!
//! `specs/Ways` defines and lists the ways, `specs/Routes` creates a route for each, and
//! `specs/Table` replaces numbers by names. `routes_of` returns the table. It rejects a network
//! that has a way of more than `MAX_PATH` sections, or more than `MAX_ROUTES` ways.
//!
//! The number of ways can double at each point, so they can't all be listed before they are
//! rejected. `endless` works in rounds, for all sections at once: it finds the sections from which
//! n sections lead on. `ways` lengthens all ways by one section a round, and stops if there are too
//! many. `routes` and `table` then write the table.
//!
//! `network_draft` returns the network with names, so that both can be written as one
//! configuration. The theorems are in `laws`.
#![tactic(auto)]

mod endless;
mod ends;
mod flags;
mod laws;
mod names;
mod network;
mod points;
mod routes;
mod table;
mod walks;
mod ways;

pub use laws::{
    generated_drafts_break_only_c7, generated_table_breaks_only_c7,
    network_without_routes_makes_plant, plant_gives_back_network_draft,
    routeless_plant_keeps_all_but_c7, ways_are_complete_and_distinct,
};
pub use network::network_draft;
pub use table::routes_of;
pub use walks::Walks;
