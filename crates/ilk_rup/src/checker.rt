//! The state while the items of a text are taken.

ghost use Rattle.std.specs.Prelude.{◌≡◌, IfOk};
ghost use Rattle.ilk_rup.specs.Alike.{AreEquivalent};
ghost use Rattle.ilk_rup.specs.Stepped.{IsItemCheckResult};

use crate::base::DerivationState;
use crate::item::{ItemKind, read_item};
use crate::next::Next;
use crate::words::Words;
use ilk_cnf::Cnf;
use std::alloc::{AllocError, Global};
use std::marker::Model;

/// The state of a check between two items: the formula, and the clauses derived from it so far.
#[derive(Drop)]
pub(crate) struct Checker<'a> {
    base: DerivationState<'a>,
}

impl<'a> Model for Checker<'a> {
    ghost use Rattle.ilk_rup.specs.Checker.{FormulaAndStoredClauses, formula_and_clauses_of_base};
    ghost use Rattle.ilk_rup.specs.Standing.{IsClosedOrRefuted};

    ghost Value = { FormulaAndStoredClauses };

    ghost view = { λ k. formula_and_clauses_of_base k.base };

    ghost invariant = { λ k. IsClosedOrRefuted k.base };
}

impl<'a> Checker<'a> {
    /// Creates the checker of a formula before the first item.
    pub fn new(alloc: Global, cnf: &'a Cnf) -> Result<Checker<'a>, AllocError>
        ensures formula { IfOk result (λ k. k.formula ≡ cnf.now) }
        ensures alike { IfOk result (λ k. AreEquivalent cnf.now.clauses k.clauses) }
    {
        let mut base = DerivationState::new(alloc, cnf)?;
        base.propagate_units(alloc)?;
        Ok(Checker { base })
    }

    /// Reads the next item from `words` and checks it. If it is right, the result contains the
    /// checker with its clause added.
    pub fn step(self, alloc: Global, words: &mut Words) -> Result<Next<'a>, AllocError>
        ensures { IfOk result (λ next. IsItemCheckResult self.entry words.old words.new next) }
    {
        let Checker { mut base } = self;
        let vars = base.formula.vars();
        base.set.clear();
        match read_item(words, &mut base.set, vars) {
            ItemKind::End => {
                let DerivationState { log, refuted, .. } = base;
                if refuted {
                    Ok(Next::Refuted(log))
                } else {
                    Ok(Next::Bad)
                }
            }
            ItemKind::Malformed => Ok(Next::Bad),
            ItemKind::Idle => Ok(Next::Right(Checker { base })),
            ItemKind::Adds => {
                if base.try_add_clause(alloc)? {
                    Ok(Next::Right(Checker { base }))
                } else {
                    Ok(Next::Bad)
                }
            }
        }
    }
}
