ghost use Rattle.std.specs.Prelude.{◌≡◌, ◌≤◌, ◌<◌, ◌+◌, ◌^◌, ℕ, Bool, true, false, Some, [], ◌∷◌, ◌++◌, length, slice_get, option_map, IfOk, IsTrue};
ghost use Rattle.ilk_cnf.specs.Code.{code_of};
ghost use Rattle.ilk_cnf.specs.Formula.{is_lit_over};
ghost use Rattle.ilk_trail.specs.Trail.{with_assignment, with_decision, entry_of, level_of, entries_up_to, value_of_literal};
ghost use Rattle.ilk_trail.specs.Laws.{IsTrail, may_follow_level, is_set};

use crate::entry::Entry;
use ilk_cnf::Lit;
use std::alloc::{AllocError, Global};
use std::marker::Model;

/// The literals that are set, in the order of assignment, each with its level and reason.
#[derive(Drop)]
pub struct Trail {
    // By literal: whether it is true, or `None` if its variable is unset.
    values: Vec<Option<bool>>,
    // By variable: the index of its entry, if it is set.
    places: Vec<u64>,
    entries: Vec<Entry>,
}

impl Model for Trail {
    ghost use Rattle.std.specs.Prelude.{◌-◌, length, vec_capacity};
    ghost use Rattle.ilk_trail.specs.Trail.{TrailList};
    ghost use Rattle.ilk_trail.specs.Stored.{StoresTrail};

    ghost Value = { TrailList };

    ghost view = { λ t. record { vars = length t.places.items - 1; entries = t.entries.items } };

    ghost invariant = { λ t. StoresTrail t.values.items t.places.items
        (record { vars = length t.places.items - 1; entries = t.entries.items })
        (vec_capacity t.entries) };
}

impl Trail {
    /// Creates an empty trail over the variables 1 to `vars`. Fails only if memory runs out.
    pub fn new(alloc: Global, vars: u64) -> Result<Trail, AllocError>
        requires { vars ≤ 2 ^ 62 }
        ensures { IfOk result (λ t. t ≡ record { vars = vars; entries = [] }) }
    {
        let size = vars as usize + 1;
        Ok(Trail {
            values: vec![in alloc; None; 2 * size]?,
            places: vec![in alloc; 0; size]?,
            entries: Vec::with_capacity(alloc, size)?,
        })
    }

    /// Returns whether literal `l` is true, or `None` if its variable is unset.
    pub fn value(&self, l: Lit) -> Option<bool>
        requires { IsTrue (is_lit_over self.now.vars l) }
        ensures { result ≡ value_of_literal self.now.entries l }
    {
        self.values[place_of(l)]
    }

    /// Returns the current level, which is 0 at the start.
    pub fn level(&self) -> u64
        ensures level { result ≡ level_of self.now.entries }
        ensures is_trail { IsTrail self.now }
    {
        match self.entries.last() {
            Some(entry) => entry.level,
            None => 0,
        }
    }

    /// Returns the level at which the variable of `l` was set. It has to be set.
    pub fn level_of(&self, l: Lit) -> u64
        requires within { IsTrue (is_lit_over self.now.vars l) }
        requires set { IsTrue (is_set self.now.entries l.var) }
        ensures { option_map (λ e. e.level) (entry_of self.now.entries l.var) ≡ Some result }
    {
        self.entry_of(l).level
    }

    /// Returns the number of the clause that forced the variable of `l`, which is set. Returns
    /// `None` if it was decided.
    pub fn reason(&self, l: Lit) -> Option<u64>
        requires within { IsTrue (is_lit_over self.now.vars l) }
        requires set { IsTrue (is_set self.now.entries l.var) }
        ensures { option_map (λ e. e.reason) (entry_of self.now.entries l.var) ≡ Some result }
    {
        self.entry_of(l).reason
    }

    fn entry_of(&self, l: Lit) -> Entry
        requires within { IsTrue (is_lit_over self.now.vars l) }
        requires set { IsTrue (is_set self.now.entries l.var) }
        ensures { entry_of self.now.entries l.var ≡ Some result }
    {
        let place = self.places[l.var() as usize];
        self.entries[place as usize]
    }

    /// Returns the number of entries.
    pub fn count(&self) -> u64
        ensures count { result ≡ length self.now.entries }
        ensures is_trail { IsTrail self.now }
    {
        self.entries.len() as u64
    }

    /// Returns the literal of entry `i`, counted from 0.
    pub fn at(&self, i: u64) -> Lit
        requires { i < length self.now.entries }
        ensures { option_map (λ e. e.lit) (slice_get self.now.entries i) ≡ Some result }
    {
        self.entries[i as usize].lit
    }

    /// Opens the next level by setting `l`, whose variable must be unset, as its decision.
    pub fn decide(&mut self, l: Lit)
        requires within { IsTrue (is_lit_over self.old.vars l) }
        requires unset { is_set self.old.entries l.var ≡ false }
        ensures { self.new ≡ record self.old { entries = with_decision self.old.entries l } }
    {
        self.add(Entry {
            lit: l,
            level: self.level() + 1,
            reason: None,
        });
    }

    /// Adds literal `l` at the current level, forced by clause number `reason`. Its variable is
    /// unset.
    pub fn assign(&mut self, l: Lit, reason: u64)
        requires within { IsTrue (is_lit_over self.old.vars l) }
        requires unset { is_set self.old.entries l.var ≡ false }
        ensures { self.new ≡ record self.old {
          entries =
              with_assignment self.old.entries l reason;
        } }
    {
        self.add(Entry {
            lit: l,
            level: self.level(),
            reason: Some(reason),
        });
    }

    /// Removes all entries of levels above `level`.
    pub fn back_to(&mut self, level: u64)
        requires { level ≤ level_of self.old.entries }
        ensures entries { self.new ≡ record self.old {
          entries =
              entries_up_to level self.old.entries;
        } }
        ensures level { level_of self.new.entries ≡ level }
    {
        while self.level() > level {
            self.take_last();
        }
    }

    fn add(&mut self, entry: Entry)
        requires within { IsTrue (is_lit_over self.old.vars entry.lit) }
        requires unset { is_set self.old.entries entry.lit.var ≡ false }
        requires level { IsTrue (may_follow_level (level_of self.old.entries) entry) }
        ensures { self.new ≡ record self.old { entries = self.old.entries ++ entry ∷ [] } }
    {
        self.values[place_of(entry.lit)] = Some(true);
        self.values[place_of(entry.lit.negated())] = Some(false);
        let var = entry.lit.var() as usize;
        self.places[var] = self.entries.len() as u64;
        self.entries.push(entry).unwrap();
    }

    fn take_last(&mut self) -> Entry
        requires { 0 < length self.old.entries }
        ensures { self.old ≡ record self.new { entries = self.new.entries ++ result ∷ [] } }
    {
        let entry = self.entries.pop().unwrap();
        self.values[place_of(entry.lit)] = None;
        self.values[place_of(entry.lit.negated())] = None;
        entry
    }
}

fn place_of(l: Lit) -> usize
    requires { l.var ≤ 2 ^ 62 }
    ensures { result ≡ code_of l }
{
    2 * l.var() as usize + l.positive() as usize
}
