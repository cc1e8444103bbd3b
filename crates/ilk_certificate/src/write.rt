ghost use Rattle.std.specs.Prelude.{◌≡◌, ◌++◌, ◌∷◌, [], codes, flat_map, IfOk, OnOk, IsTrue, string_bytes};
ghost use Rattle.std.specs.Fmt.{decimal};
ghost use Rattle.ilk_lines.specs.Written.{join_word_and_rest, text_of};
ghost use Rattle.ilk_certificate.specs.CertificateText.{total_conflicts, have_no_hint_zero, query_and_log_lines, safe_text, spent_text};
ghost use Rattle.ilk_certificate.specs.Kept.{drop_nonfinal_step_queries};
ghost use Rattle.ilk_certificate.specs.Writing.{text_unless_step_query};

use crate::asked::Asked;
use crate::text::{push_asked, push_numbered, push_unless_step};
use ilk_log::count_learned_clauses;
use std::alloc::{AllocError, Global};

pub(crate) fn total_conflicts(asked: &[Asked]) -> u128
    ensures { result ≡ total_conflicts asked.now }
{
    let mut count = 0;
    for query in asked {
        count += count_learned_clauses(&query.log) as u128;
    }
    count
}

fn push_all(text: &mut String, asked: &[Asked]) -> Result<(), AllocError>
    requires { IsTrue (have_no_hint_zero asked.now) }
    ensures { OnOk result
        (string_bytes text.new
        ≡ string_bytes text.old ++ text_of (flat_map query_and_log_lines asked.now)) }
{
    for query in asked {
        push_asked(text, query)?;
    }
    Ok(())
}

fn push_bases(text: &mut String, asked: &[Asked]) -> Result<(), AllocError>
    requires { IsTrue (have_no_hint_zero asked.now) }
    ensures { OnOk result
        (string_bytes text.new
        ≡ string_bytes text.old ++ flat_map text_unless_step_query asked.now) }
{
    for query in asked {
        push_unless_step(text, query)?;
    }
    Ok(())
}

fn push_kept(text: &mut String, asked: &[Asked]) -> Result<(), AllocError>
    requires { IsTrue (have_no_hint_zero asked.now) }
    ensures { OnOk result
        (string_bytes text.new
        ≡ string_bytes text.old
        ++ text_of (flat_map query_and_log_lines (drop_nonfinal_step_queries asked.now))) }
{
    let Some((last, before)) = asked.split_last() else {
        return Ok(());
    };
    push_bases(text, before)?;
    push_asked(text, last)?;
    Ok(())
}

/// Returns the first two lines: the header, and the verdict.
pub(crate) fn header_text(alloc: Global, word: &str, number: u128) -> Result<String, AllocError>
    ensures { IfOk result
        (λ text. string_bytes text
        ≡ text_of (codes "irv certificate 3" ∷ join_word_and_rest word.now (decimal number) ∷ [])) }
{
    let mut text = String::from_str(alloc, "irv certificate 3\n")?;
    push_numbered(&mut text, word, number)?;
    Ok(text)
}

/// Returns the text that states that a system is safe at `k`, from the queries `asked`. It omits
/// the step queries before the last query, which had runs. Each line ends with one line feed. No
/// hint of a log may be 0. Fails only if memory runs out.
pub fn safe_text(alloc: Global, k: u32, asked: &[Asked]) -> Result<Vec<u8>, AllocError>
    requires hints { IsTrue (have_no_hint_zero asked.now) }
    ensures { IfOk result (λ text. text.items ≡
        safe_text k (drop_nonfinal_step_queries asked.now)) }
{
    let mut text = header_text(alloc, "safe", k as u128)?;
    push_kept(&mut text, asked)?;
    text.push_str("end\n")?;
    Ok(text.into_bytes())
}

/// Returns the text that states that all conflicts are spent, from the queries `asked` until then.
/// Each line ends with one line feed. No hint of a log may be 0. Fails only if memory runs out.
pub fn spent_text(alloc: Global, asked: &[Asked]) -> Result<Vec<u8>, AllocError>
    requires hints { IsTrue (have_no_hint_zero asked.now) }
    ensures { IfOk result (λ text. text.items ≡ spent_text (total_conflicts asked.now) asked.now) }
{
    let mut text = header_text(alloc, "spent", total_conflicts(asked))?;
    push_all(&mut text, asked)?;
    text.push_str("end\n")?;
    Ok(text.into_bytes())
}
