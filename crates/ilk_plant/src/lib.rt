//! The plant (the interlocking under verification) and its state: the subject of all rules, events
//! and texts.
//!
//! The network and the interlocking table are those of an ETCS Level 2 line without lineside
//! signals. The source is Vu, Haxthausen and Peleska, "Formal modelling and verification of
//! interlocking systems featuring sequential release", Science of Computer Programming 133 (2017).
//!
//! A configuration is read into drafts, which use names (`draft`). `NetNames` has the names of a
//! network by number. `NumberedNetAndTable` has the drafts with numbers in place of names. Both are
//! built once and passed on. `Plant::from_numbered` creates the plant of numbered drafts that
//! violate no rule, so a plant keeps the rules as facts. `Plant::make` does all three steps.
//!
//! The definitions of the rules are here (`specs/NetworkRules.antt`, `TableRules.antt`,
//! `ColumnRules.antt`), because the plant's own facts depend on them. `start_state` returns the
//! initial state; `has_shape` checks whether a state is well-formed for a plant. `limits` names the
//! limits, `words` the words of texts.
#![tactic(auto)]

mod broken;
mod draft;
mod limits;
mod locks;
mod make;
mod names;
mod net_names;
mod network;
mod numbered_drafts;
mod numbering;
mod occupancy;
mod plant;
mod points;
mod shape;
mod start;
mod state;
mod table;
mod words;

pub use broken::{Broken, PlaceKind, Rule, push_broken_if};
pub use draft::{KindDraft, ListedDraft, NetDraft, RouteDraft, SectionDraft, TableDraft};
pub use ilk_base::{HasWord, Row, Text};
pub use limits::{
    MAX_BOARDS, MAX_NAME, MAX_OVERLAP, MAX_PATH, MAX_PROTECTING_BOARDS, MAX_PROTECTING_POINTS,
    MAX_ROUTE_CONFLICTS, MAX_ROUTE_POINTS, MAX_ROUTES, MAX_SECTIONS,
};
pub use locks::{has_lock_state, is_unlocked_and_vacant};
pub use names::Names;
pub use net_names::NetNames;
pub use network::{Board, Dir, Position, Section};
pub use numbered_drafts::NumberedNetAndTable;
pub use occupancy::{contains_section, occupied};
pub use plant::Plant;
pub use points::{detected_position_in_state, is_leg_at_position, point_number_at};
pub use start::start_state;
pub use state::{Aspect, Hold, Lie, Mode, PointState, RouteState, State, Train};
pub use table::{Listed, Route};
