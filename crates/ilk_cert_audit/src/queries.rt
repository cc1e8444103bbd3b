ghost use Rattle.std.specs.Prelude.{ℕ, ◌≡◌, ◌<◌, ◌≤◌, ◌↔◌, IfNone, IfSome, IsTrue};
ghost use Rattle.std.specs.Fmt.{decimal};
ghost use Rattle.ilk_certificate.specs.CertificateText.{query_header_line};
ghost use Rattle.ilk_lines.specs.Written.{join_word_and_rest};
ghost use Rattle.ilk_cert_audit.specs.Grammar.{safe_line};
ghost use Rattle.ilk_cert_audit.specs.Stages.{is_valid_k, is_valid_query_within_k, certified_queries_after_query, certified_queries_from_next};

use ilk_lines::{decimal_up_to, strip_word_and_space};
use ilk_unroll::Wanted;

/// Returns the query that comes after `query` in a certificate for `k`, or `None` after the last.
pub(crate) fn query_after(k: u32, query: Wanted) -> Option<Wanted>
    requires number { IsTrue (is_valid_k k) }
    requires asked { IsTrue (is_valid_query_within_k k query) }
    ensures next { certified_queries_from_next k result ≡ certified_queries_after_query k query }
    ensures asked { IfSome result (λ next. IsTrue (is_valid_query_within_k k next)) }
{
    match query {
        Wanted::Hazard(n) => Some(Wanted::Breach(n)),
        Wanted::Breach(n) if n < k => Some(Wanted::Hazard(n + 1)),
        Wanted::Breach(_) => Some(Wanted::Step(k)),
        Wanted::Step(_) => None,
    }
}

fn number_after(line: &[u8], word: &[u8], limit: u64) -> Option<u64>
    ensures some { IfSome result (λ n. (line.now ≡ join_word_and_rest word.now (decimal n))
        × (n ≤ limit)) }
    ensures none { IfNone result
        ((n : ℕ) → n ≤ limit → ¬ (line.now ≡ join_word_and_rest word.now (decimal n))) }
{
    let Some(rest) = strip_word_and_space(line, word) else {
        return None;
    };
    decimal_up_to(rest, limit)
}

fn is_numbered(line: &[u8], word: &[u8], number: u32) -> bool
    ensures { IsTrue result ↔ (line.now ≡ join_word_and_rest word.now (decimal number)) }
{
    match number_after(line, word, u32::MAX as u64) {
        Some(n) => n == number as u64,
        None => false,
    }
}

/// Returns whether `line` is the line that begins `query` in a certificate.
pub(crate) fn is_query_line(line: &[u8], query: Wanted) -> bool
    ensures { IsTrue result ↔ (line.now ≡ query_header_line query) }
{
    let Some(rest) = strip_word_and_space(line, b"query") else {
        return false;
    };
    match query {
        Wanted::Hazard(n) => is_numbered(rest, b"hazard", n),
        Wanted::Breach(n) => is_numbered(rest, b"breach", n),
        Wanted::Step(n) => is_numbered(rest, b"step", n),
    }
}

/// Returns `k` if the line is `safe k` with `k` from 1 to 16, otherwise `None`.
pub(crate) fn read_safe_line(line: &[u8]) -> Option<u32>
    ensures told { IfSome result (λ k. (line.now ≡ safe_line k) × IsTrue (is_valid_k k)) }
    ensures none { IfNone result ((k : ℕ) → 0 < k → k ≤ 16 → ¬ (line.now ≡ safe_line k)) }
{
    match number_after(line, b"safe", 16) {
        Some(k) if k > 0 => Some(k as u32),
        _ => None,
    }
}
