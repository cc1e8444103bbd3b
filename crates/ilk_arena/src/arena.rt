ghost use Rattle.std.specs.Prelude.{◌≡◌, ◌≤◌, ◌<◌, ◌+◌, ◌*◌, ◌^◌, false, Some, [], length, slice_get, replicate, IfOk, IfSome, OnOk, OnErr, IsTrue};
ghost use Rattle.ilk_cnf.specs.Formula.{is_clause_over, is_lit_over};
ghost use Rattle.ilk_cnf.specs.Literal.{has_distinct_vars};
ghost use Rattle.ilk_arena.specs.Arena.{with_clause_added, reference_after_in_list, chain_of, clause_cursor, first_of, follows_or_heads_chain, literals_of, number_of_clause, other_watch_of, with_watch_moved, set_for_reference, contains_reference};
ghost use Rattle.ilk_arena.specs.Words.{reference_unless_zero};
ghost use Rattle.ilk_arena.specs.Chains.{EachLongClauseWatchesTwo};

use crate::block::push_clause_words;
use crate::links::{move_watch, next_of, other_watched_place, set_both_heads};
use crate::place::{WORD_VALUE_LIMIT, lit_with_place_number, place};
use ilk_cnf::Lit;
use std::alloc::{AllocError, Global};
use std::marker::Model;

// The size of a header, and the offsets of the number and the cursor in it.
const HEADER: usize = 7;

const NUMBER: usize = 5;

const CURSOR: usize = 6;

/// The clauses of a search in one block of memory, with a chain of watching clauses for each
/// literal. A reference names a clause.
#[derive(Drop)]
pub struct Arena {
    // The clauses, after one unused word, so that no reference is 0.
    words: Vec<u32>,
    // By place: the first clause of its chain, or 0.
    heads: Vec<u32>,
    vars: u64,
    count: u32,
}

impl Model for Arena {
    ghost use Rattle.std.specs.Prelude.{◌-◌, min, vec_len, vec_capacity};
    ghost use Rattle.ilk_arena.specs.Arena.{ArenaContent};
    ghost use Rattle.ilk_arena.specs.Linked.{lists_of, references_in_block, IsArenaInvariant};
    ghost use Rattle.ilk_arena.specs.declared.place.TheConstants.{WORD_VALUE_LIMIT};

    ghost Value = { ArenaContent };

    ghost view = { λ a. lists_of a.vars (min (vec_capacity a.words) WORD_VALUE_LIMIT - vec_len
        a.words)
        a.words.items a.heads.items (references_in_block a.words.items) };

    ghost invariant = { λ a. IsArenaInvariant a.words.items a.heads.items a.vars a.count };
}

#[inline(always)]
fn reference(link: u32) -> Option<u64>
    ensures { result ≡ reference_unless_zero link }
{
    if link == 0 { None } else { Some(link as u64) }
}

impl Arena {
    /// Creates an arena over the variables 1 to `vars`, without clauses. Fails if memory runs out,
    /// or for 2^31 variables or more, because their places don't fit a word.
    pub fn new(alloc: Global, vars: u64) -> Result<Arena, AllocError>
        requires { vars ≤ 2 ^ 62 }
        ensures empty { IfOk result
            (λ a. a
            ≡ record {
              vars = vars;
              spare = a.spare;
              references = [];
              clauses = [];
              cursors = [];
              chains = replicate (2 * vars + 2) [];
            }) }
        ensures arena { IfOk result (λ a. EachLongClauseWatchesTwo a) }
    {
        if 2 * vars + 2 > WORD_VALUE_LIMIT {
            return Err(AllocError);
        }
        Ok(Arena {
            words: vec![in alloc; 0]?,
            heads: vec![in alloc; 0; 2 * vars as usize + 2]?,
            vars,
            count: 0,
        })
    }

    /// Makes room for clauses of `words` words in total: their literals, and 8 more for each
    /// clause. Fails if memory runs out, or for more than 2^32 words in all, because a later
    /// reference would not fit a word.
    pub fn reserve(&mut self, words: u64) -> Result<(), AllocError>
        ensures room { OnOk result (words ≤ self.new.spare) }
        ensures same { self.new ≡ record self.old { spare = self.new.spare } }
        ensures err { OnErr result (self.new ≡ self.old) }
    {
        if words > WORD_VALUE_LIMIT - self.words.len() as u64 {
            return Err(AllocError);
        }
        self.words.reserve(words as usize)?;
        Ok(())
    }

    /// Adds a clause and returns its reference. If it has two or more literals, it watches the
    /// first two and is put first in their chains.
    pub fn add(&mut self, clause: &[Lit]) -> u64
        requires room { length clause.now + 8 ≤ self.old.spare }
        requires within { IsTrue (is_clause_over self.old.vars clause.now) }
        requires differ { IsTrue (has_distinct_vars clause.now) }
        ensures added { self.new ≡ with_clause_added self.old clause.now result self.new.spare }
        ensures fresh { contains_reference result self.old.references ≡ false }
        ensures room { self.old.spare ≤ self.new.spare + length clause.now + 8 }
        ensures arena { EachLongClauseWatchesTwo self.new }
    {
        if clause.len() < 2 {
            self.add_short(clause)
        } else {
            self.add_long(clause)
        }
    }

    fn add_short(&mut self, clause: &[Lit]) -> u64
        requires room { length clause.now + 8 ≤ self.old.spare }
        requires within { IsTrue (is_clause_over self.old.vars clause.now) }
        requires differ { IsTrue (has_distinct_vars clause.now) }
        requires short { length clause.now < 2 }
        ensures added { self.new ≡ with_clause_added self.old clause.now result self.new.spare }
        ensures fresh { contains_reference result self.old.references ≡ false }
        ensures room { self.old.spare ≤ self.new.spare + length clause.now + 8 }
        ensures arena { EachLongClauseWatchesTwo self.new }
    {
        let reference = self.words.len() as u64;
        self.count += 1;
        push_clause_words(
            &mut self.words,
            [clause.len() as u32, 0, 0, 1, 0, self.count, 0],
            clause,
        );
        reference
    }

    fn add_long(&mut self, clause: &[Lit]) -> u64
        requires room { length clause.now + 8 ≤ self.old.spare }
        requires within { IsTrue (is_clause_over self.old.vars clause.now) }
        requires differ { IsTrue (has_distinct_vars clause.now) }
        requires long { 2 ≤ length clause.now }
        ensures added { self.new ≡ with_clause_added self.old clause.now result self.new.spare }
        ensures fresh { contains_reference result self.old.references ≡ false }
        ensures room { self.old.spare ≤ self.new.spare + length clause.now + 8 }
        ensures arena { EachLongClauseWatchesTwo self.new }
    {
        let reference = self.words.len() as u64;
        let left = place(clause[0]);
        let right = place(clause[1]);
        let left_link = self.heads[left as usize];
        let right_link = self.heads[right as usize];
        self.count += 1;
        push_clause_words(
            &mut self.words,
            [
                clause.len() as u32,
                left,
                left_link,
                right,
                right_link,
                self.count,
                0,
            ],
            clause,
        );
        set_both_heads(&mut self.heads, left, right, reference);
        reference
    }

    /// Returns the number of variables.
    pub fn vars(&self) -> u64
        ensures count { result ≡ self.now.vars }
        ensures numbered { result ≤ 2 ^ 62 }
    {
        self.vars
    }

    /// Returns the number of literals of clause `c`.
    pub fn length(&self, c: u64) -> u64
        requires { IsTrue (contains_reference c self.now.references) }
        ensures { result ≡ length (literals_of self.now c) }
    {
        self.words[c as usize] as u64
    }

    /// Returns literal `i` of clause `c`.
    pub fn literal(&self, c: u64, i: u64) -> Lit
        requires known { IsTrue (contains_reference c self.now.references) }
        requires below { i < length (literals_of self.now c) }
        ensures { slice_get (literals_of self.now c) i ≡ Some result }
    {
        lit_with_place_number(self.words[c as usize + HEADER + i as usize])
    }

    /// Returns the number of clause `c`: clauses are numbered from 1, in the order of adding.
    pub fn number(&self, c: u64) -> u64
        requires { IsTrue (contains_reference c self.now.references) }
        ensures { result ≡ number_of_clause self.now c }
    {
        self.words[c as usize + NUMBER] as u64
    }

    /// Returns the cursor of clause `c`: a position among its literals, at first 0.
    pub fn cursor(&self, c: u64) -> u64
        requires { IsTrue (contains_reference c self.now.references) }
        ensures cursor { result ≡ clause_cursor self.now c }
        ensures within { result ≤ length (literals_of self.now c) }
    {
        self.words[c as usize + CURSOR] as u64
    }

    /// Sets the cursor of clause `c` to position `i` among its literals.
    pub fn set_clause_cursor(&mut self, c: u64, i: u64)
        requires known { IsTrue (contains_reference c self.old.references) }
        requires within { i ≤ length (literals_of self.old c) }
        ensures { self.new
            ≡ record self.old {
              cursors = set_for_reference c self.old.references self.old.cursors
                  i;
            } }
    {
        let cursor = &mut self.words[c as usize + CURSOR];
        *cursor = i as u32;
    }

    /// Returns the first clause in the chain of literal `l`, or `None` if no clause watches `l`.
    pub fn first_watch(&self, l: Lit) -> Option<u64>
        requires { IsTrue (is_lit_over self.now.vars l) }
        ensures first { result ≡ first_of (chain_of self.now l) }
        ensures arena { EachLongClauseWatchesTwo self.now }
    {
        reference(self.heads[place(l) as usize])
    }

    /// Returns the clause after clause `c` in the chain of literal `l`, or `None` if `c` is the
    /// last.
    pub fn next_watch(&self, c: u64, l: Lit) -> Option<u64>
        requires within { IsTrue (is_lit_over self.now.vars l) }
        requires stands { IsTrue (contains_reference c (chain_of self.now l)) }
        ensures { result ≡ reference_after_in_list c (chain_of self.now l) }
    {
        reference(next_of(&self.words, place(l), c))
    }

    /// Returns the literal besides `l` that clause `c` watches.
    pub fn other_watch(&self, c: u64, l: Lit) -> Lit
        requires within { IsTrue (is_lit_over self.now.vars l) }
        requires stands { IsTrue (contains_reference c (chain_of self.now l)) }
        ensures { other_watch_of self.now c l ≡ Some result }
    {
        lit_with_place_number(other_watched_place(&self.words, place(l), c))
    }

    /// Moves a watch of clause `c` from literal `from` to its literal number `to`, which it doesn't
    /// watch yet. In the chain of `from`, `c` directly follows clause `before`, or is first if
    /// `before` is `None`. It becomes first in the chain of the new literal.
    pub fn rewatch(&mut self, before: Option<u64>, c: u64, from: Lit, to: u64)
        requires within { IsTrue (is_lit_over self.old.vars from) }
        requires follows { IsTrue (follows_or_heads_chain before c (chain_of self.old from)) }
        requires to_in { to < length (literals_of self.old c) }
        requires unwatched { IfSome (slice_get (literals_of self.old c) to)
            (λ l. contains_reference c (chain_of self.old l) ≡ false) }
        ensures moved { IfSome (slice_get (literals_of self.old c) to)
            (λ l. self.new ≡ with_watch_moved self.old c from l) }
        ensures arena { EachLongClauseWatchesTwo self.new }
    {
        let watch = self.words[c as usize + HEADER + to as usize];
        move_watch(
            &mut self.words,
            &mut self.heads,
            before,
            c,
            place(from),
            watch,
        );
    }
}
