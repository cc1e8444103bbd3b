ghost use Rattle.std.specs.Prelude.{ℕ, ◌≡◌, ◌==◌, ◌≤◌, ◌<◌, length, false, true, if◌then◌else◌, IsTrue};
ghost use Rattle.ilk_cnf.specs.Formula.{is_clause_over};
ghost use Rattle.ilk_cnf.specs.Literal.{has_var, has_distinct_vars};
ghost use Rattle.ilk_cnf.specs.Marks.{is_marked};

use crate::lit::Lit;

fn set_mark(marks: &mut [u16], v: u64, mark: bool)
    requires from_1 { 0 < v }
    requires within { v ≤ length marks.old }
    ensures count { length marks.new ≡ length marks.old }
    ensures marks { (w : ℕ) → 0 < w →
        is_marked marks.new w ≡ (if v == w then mark else is_marked marks.old w) }
{
    marks[v as usize - 1] = mark as u16;
}

fn is_marked(marks: &[u16], v: u64) -> bool
    requires from_1 { 0 < v }
    requires within { v ≤ length marks.now }
    ensures { result ≡ is_marked marks.now v }
{
    marks[v as usize - 1] == 1
}

fn unmark(marks: &mut [u16], lits: &[Lit])
    requires { IsTrue (is_clause_over (length marks.old) lits.now) }
    ensures count { length marks.new ≡ length marks.old }
    ensures marks { (v : ℕ) → 0 < v → has_var v lits.now ≡ true → is_marked marks.new v ≡ false }
{
    for lit in lits {
        set_mark(marks, lit.var(), false);
    }
}

/// Returns whether `lits` are over different variables. `marks` needs an entry for each variable;
/// its content may be anything before the call, and is unspecified after it.
pub(crate) fn has_distinct_vars(marks: &mut [u16], lits: &[Lit]) -> bool
    requires { IsTrue (is_clause_over (length marks.old) lits.now) }
    ensures count { length marks.new ≡ length marks.old }
    ensures differ { result ≡ has_distinct_vars lits.now }
{
    unmark(marks, lits);
    for lit in lits {
        if is_marked(marks, lit.var()) {
            return false;
        }
        set_mark(marks, lit.var(), true);
    }
    true
}
