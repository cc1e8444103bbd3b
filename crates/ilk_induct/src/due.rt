ghost use Rattle.std.specs.Prelude.{◌≡◌};
ghost use Rattle.ilk_induct.specs.Due.{due_query, query_or_verdict_after_response, next_hazard_query_or_breach, query_or_verdict_after_refutation, query_or_verdict_after_run};

use crate::ask::Response;
use crate::verdict::Verdict;
use ilk_unroll::{Trace, Wanted};

/// The query to be asked next.
#[derive(Drop)]
pub(crate) enum DueQuery {
    /// This query; no breach was found yet.
    Unbroken(Wanted),
    /// The hazard query for runs of this many steps; this run is a breach.
    Broken(u32, Trace),
}

impl DueQuery {
    /// Returns the query to be asked.
    pub fn query(&self) -> Wanted
        ensures { result ≡ due_query self.now }
    {
        match self {
            DueQuery::Unbroken(q) => *q,
            DueQuery::Broken(n, _) => Wanted::Hazard(*n),
        }
    }
}

/// What follows after a query: another query, or the verdict.
#[derive(Drop)]
pub(crate) enum Next {
    Ask(DueQuery),
    End(Verdict),
}

fn next_after_breach(depth: u32, n: u32, breach: Trace) -> Next
    ensures { result ≡ next_hazard_query_or_breach depth n breach }
{
    if n < depth {
        Next::Ask(DueQuery::Broken(n + 1, breach))
    } else {
        Next::End(Verdict::Breach(breach))
    }
}

fn next_after_run(depth: u32, due: DueQuery, trace: Trace) -> Next
    ensures { result ≡ query_or_verdict_after_run depth due trace }
{
    match due {
        DueQuery::Unbroken(Wanted::Hazard(_)) => Next::End(Verdict::Unsafe(trace)),
        DueQuery::Unbroken(Wanted::Breach(n)) => next_after_breach(depth, n, trace),
        DueQuery::Unbroken(Wanted::Step(n)) => {
            if n < depth {
                Next::Ask(DueQuery::Unbroken(Wanted::Hazard(n + 1)))
            } else {
                Next::End(Verdict::NotInductive(trace))
            }
        }
        DueQuery::Broken(_, _) => Next::End(Verdict::Unsafe(trace)),
    }
}

fn next_after_none(depth: u32, due: DueQuery) -> Next
    ensures { result ≡ query_or_verdict_after_refutation depth due }
{
    match due {
        DueQuery::Unbroken(Wanted::Hazard(n)) => Next::Ask(DueQuery::Unbroken(Wanted::Breach(n))),
        DueQuery::Unbroken(Wanted::Breach(0)) => Next::Ask(DueQuery::Unbroken(Wanted::Hazard(1))),
        DueQuery::Unbroken(Wanted::Breach(n)) => Next::Ask(DueQuery::Unbroken(Wanted::Step(n))),
        DueQuery::Unbroken(Wanted::Step(k)) => Next::End(Verdict::Safe { k }),
        DueQuery::Broken(n, breach) => next_after_breach(depth, n, breach),
    }
}

/// Returns the query or the verdict that follows after the query `due` has this response. `depth`
/// is the maximum number of steps.
pub(crate) fn query_or_verdict_after_response(depth: u32, due: DueQuery, response: Response) -> Next
    ensures { result ≡ query_or_verdict_after_response depth due response }
{
    match response {
        Response::Run(trace) => next_after_run(depth, due, trace),
        Response::Refuted => next_after_none(depth, due),
        Response::GivenUp => Next::End(Verdict::Spent),
    }
}
