//! The search for an assignment that satisfies a formula.
//!
//! `Solver::new` takes a formula, a `Picker` and a `Restart`. `solve` runs the search to an
//! `Outcome`: an answer, and the log of the learned clauses. `specs/Answered` defines the meaning
//! of each answer, and the properties of every log. `propagate` only assigns what the clauses
//! force.
//!
//! A search has its clauses by number, the steps so far, and a `View`: the trail and the weights of
//! the variables. A `Picker` sees the view when the next decision is due. A `Restart` is asked
//! after each learned clause whether the search goes back to its start.
//!
//! `specs/Search` is the invariant of a search between calls: each forced entry has its reason,
//! each level below the current one is closed (`specs/Levels`), and the weights count the steps. It
//! follows that a learned clause is fresh, and that at most 3^n - 1 clauses can be learned over n
//! variables. Propagation walks chains of watching clauses (`ilk_watches`); its progress is stored
//! beside the clauses.
//!
//! The search is that of GRASP (J. P. Marques-Silva and K. A. Sakallah, 1996 and 1999), with the
//! watched literals, restarts and weights of Chaff (M. W. Moskewicz, C. F. Madigan, Y. Zhao, L.
//! Zhang and S. Malik, 2001). It learns at the first unique implication point (L. Zhang, C. F.
//! Madigan, M. W. Moskewicz and S. Malik, 2001). Unlike in Chaff, a weight belongs to a variable,
//! not to a literal, and is never divided; and no learned clause is deleted.
//!
//! A decision asks for the heaviest unset variable. It is at the top of a tree of winners, as in a
//! knock-out tournament (`specs/Tree`, `src/tree`). A node stores its variable and the weight in
//! one word (`specs/Word`), so a match reads only two adjacent words. A set variable stays in the
//! tree until it comes to the top, and is put back when its entry leaves the trail (`src/order`).
//! So most entries don't touch the tree.
#![tactic(auto)]

mod answer;
mod assigned;
mod order;
mod picker;
mod restart;
mod search;
mod solver;
mod tree;
mod view;
mod word;

pub use answer::{Answer, Outcome};
pub use picker::Picker;
pub use restart::Restart;
pub use solver::Solver;
pub use view::View;
