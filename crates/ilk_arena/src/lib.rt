//! All clauses of a search, in one block of words, with a linked list (chain) of clauses for each
//! literal.
//!
//! When a literal becomes false, a search asks which clauses may have become unit. So each clause
//! of two or more literals watches two of its literals, and the clauses that watch a literal are
//! linked into a chain. The links are in the clauses' headers. So moving a watch takes no memory
//! and writes a few words that were just read, as in A. Biere, "PicoSAT essentials", JSAT 4, 2008.
//!
//! A search spends most of its time loading headers, so a word has only 32 bits. References and
//! places of literals are below 2^32 (`WORD_VALUE_LIMIT`), so an arena has at most 2^32 words and
//! 2^31 - 1 variables. Beyond that, `new` and `reserve` report out of memory.
//!
//! `reserve` makes room. `add` then adds a clause, cannot fail, and returns the reference that
//! names the clause in all other calls. `first_watch` and `next_watch` walk the chain of a literal.
//! `other_watch`, `length`, `literal` and `number` query a clause. `rewatch` moves a watch to
//! another literal of the clause. Each clause also has a `cursor`, a position among its literals at
//! which a search for a new watch may continue (I. P. Gent, "Optimal implementation of watched
//! literals and more general techniques", JAIR 48, 2013).
#![tactic(auto)]

mod arena;
mod block;
mod links;
mod place;

pub use arena::Arena;
