ghost use Rattle.std.specs.Prelude.{◌≡◌};
ghost use Rattle.ilk_log.specs.Conflicts.{count_learned_clauses};

use crate::steps::Log;

/// Returns the number of learned clauses in a log: the steps whose clause isn't empty.
pub fn count_learned_clauses(log: &Log) -> u64
    ensures { result ≡ count_learned_clauses log.now }
{
    let mut count = 0;
    for step in log.packed() {
        if step.has_literal() {
            count += 1;
        }
    }
    count
}
