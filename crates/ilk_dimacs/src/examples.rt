ghost use Rattle.std.specs.Prelude.{◌≡◌, [], ◌∷◌, codes};
ghost use Rattle.ilk_cnf.specs.Literal.{negative_lit, positive_lit};
ghost use Rattle.ilk_dimacs.specs.DimacsText.{dimacs_text};

#[tactic(auto, using(crate::proofs::FormulaTexts::four_clauses, crate::proofs::FormulaTexts::empty_clause, crate::proofs::FormulaTexts::no_clause))]
// The text of the clauses (1 2), (1 -2), (-1 2) and (-1 -2), of the empty clause, and of no clause.
fn texts_of_formulas()
    ensures four { dimacs_text
        (record {
          vars = 2;
          clauses = (positive_lit 1 ∷ positive_lit 2 ∷ []) ∷ (positive_lit 1 ∷ negative_lit 2 ∷ [])
              ∷ (negative_lit 1 ∷ positive_lit 2 ∷ []) ∷ (negative_lit 1 ∷ negative_lit 2 ∷ [])
              ∷ [];
        })
        ≡ codes "p cnf 2 4\n1 2 0\n1 -2 0\n-1 2 0\n-1 -2 0\n" }
    ensures empty { dimacs_text (record { vars = 0; clauses = [] ∷ [] }) ≡ codes "p cnf 0 1\n0\n" }
    ensures none { dimacs_text (record { vars = 0; clauses = [] }) ≡ codes "p cnf 0 0\n" }
{}
