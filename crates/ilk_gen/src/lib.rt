//! Generates configurations of known size and shape, for tests, measurements and demonstrations:
//! lines of up to sixteen stations.
//!
//! `stations` returns the configuration of `n` stations as a text; `stations_plant` creates its
//! plant without a text. `specs/Stations` and `specs/StationRoutes` define the line.
//!
//! Three theorems state that the text is read as exactly these drafts, that the drafts violate no
//! rule, and their numbers of sections and routes (`laws`). They are proved by computation, since
//! there are only sixteen such lines (`proofs/Computed..`). Only N7, that no walk returns, is
//! proved by reasoning (`proofs/Upwards`).
#![tactic(auto)]

mod laws;
mod making;
mod names;
mod routes;
mod sections;

pub use laws::{
    stations_break_no_rule, stations_section_and_route_counts, stations_text_reads_as_drafts,
};
pub use making::{MAX_STATIONS, stations, stations_plant};
