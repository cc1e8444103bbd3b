//! Bounded integers as bits in formulas, and the constraint that exactly one of some literals is
//! true.
//!
//! An integer from 0 to `range` - 1 has as many variables as its greatest value needs bits. Clauses
//! rule out the bit patterns that are not values. Contracts describe a value by its bits
//! (`specs/Bits`).
//!
//! `number` adds an integer, `is` a literal for one value, and `add_bound_lit` a literal for a
//! bound, built from two existing literals. `add_value_lits` and `add_bound_lits` add literals for
//! all values and for the useful bounds. With the bits, these need at most two variables per value.
//! `value_of` reads the value from an assignment.
//!
//! `one_of` joins any literals in fours, as in a balanced tree. So propagation from one literal to
//! another passes few variables, and a search over many literals, such as the rules of a step,
//! learns short derivations.
//!
//! Each call adds a formula part (`specs/Number`, `specs/AtMost`, `specs/Named`, `specs/OneOf`).
//! The part depends only on the earlier number of variables and the call's arguments. A theorem
//! says in how many ways an earlier assignment extends over the new variables. For `number` it is
//! one way per value, and for the calls that give literals one way. For `one_of` it is one way if
//! exactly one of its literals is true, and otherwise none.
#![tactic(auto)]

mod bounded;
mod limit;
mod selection;
mod table;

pub use bounded::{
    Bounded, add_number_clauses, add_value_lit_clauses, bit_count, is, new_var_lit, number,
    one_bit_value_lit, reserve_number, value_of,
};
pub use limit::add_bound_lit;
pub use selection::one_of;
pub use table::{add_bound_lits, add_value_lits, reserve_value_and_bound_vars};
