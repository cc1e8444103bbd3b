//! The behaviour of a plant as a finite system: for each event guarded rules over the plant's
//! variables, which step exactly as the event does.
//!
//! A state's image (`ilk_layout`) has a small value for each part of the state. The guard of a rule
//! tests in the image the condition of the event, and its settings make the event's changes.
//! `specs/RouteRules`, `PointRules` and `TrainRules` define the rules of each event.
//! `specs/Behaviour` joins them, route by route and then section by section, because a solver is
//! faster if the rules of a route are adjacent. A guard is a conjunction of single values, their
//! negations and disjunctions, so that the encoding can split it.
//!
//! `behaviour` builds the system of a plant, and `event_of` returns the event of a rule. An event
//! has one rule for each case: each index of a path, each section to which a train may move, and
//! whether a hazard results. The contract of `behaviour` says that the system is valid and steps as
//! the events do. `laws` says this of each event (`specs/Steps`); `each_event_has_few_rules` bounds
//! the number of rules of an event.
#![tactic(auto)]

mod counts;
mod events;
mod guards;
mod heads;
mod laws;
mod passage_rules;
mod point_rules;
mod route_rules;
mod settings;
mod system;
mod train_rules;
mod validity;

pub use events::event_of;
pub use laws::{
    allocate_rules_match_event, cancel_rules_match_event, enter_rules_match_event,
    finish_rules_match_event, head_rules_match_event, leave_rules_match_event,
    lock_rules_match_event, mark_rules_match_event, release_rules_match_event,
    sense_rules_match_event, settle_rules_match_event, system_matches_events,
    tail_rules_match_event, throw_rules_match_event,
};
pub use system::behaviour;
pub use validity::{MAX_RULES_PER_EVENT, each_event_has_few_rules, system_is_valid};
