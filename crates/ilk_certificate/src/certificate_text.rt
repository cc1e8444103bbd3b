ghost use Rattle.std.specs.Prelude.{◌≡◌, ◌++◌, ◌∷◌, [], codes, drop, flat_map, length, min, take, IfOk, OnOk};
ghost use Rattle.std.specs.Fmt.{decimal};
ghost use Rattle.ilk_lines.specs.Written.{join_word_and_rest, text_of};
ghost use Rattle.ilk_certificate.specs.CertificateText.{total_conflicts, query_and_log_lines, safe_text, spent_text};
ghost use Rattle.ilk_certificate.specs.Kept.{drop_nonfinal_step_queries};
ghost use Rattle.ilk_certificate.specs.Writing.{query_and_log_text, text_without_nonfinal_step_queries, untaken_bytes_of_part};

use crate::asked::Asked;
use crate::part::Part;
use crate::text::{is_step, push_query};
use crate::write::{header_text, total_conflicts};
use ilk_base::Row;
use ilk_lines::RemainingBytes;
use ilk_log::LogText;
use std::alloc::{AllocError, Global};
use std::marker::Model;

/// The text of a certificate, taken in pieces; contracts see the bytes still to be taken. It owns
/// the logs of the queries, and makes their lines only as they are taken. Taking pieces allocates
/// no memory.
#[derive(Drop)]
pub struct CertificateText {
    parts: Vec<Part>,
    at: usize,
}

impl Model for CertificateText {
    ghost use Rattle.std.specs.Prelude.{ℕ, ◌≤◌, List, drop, flat_map, vec_len};

    ghost Value = { List ℕ };

    ghost use Rattle.ilk_certificate.specs.Writing.{untaken_bytes_of_part};

    ghost view = { λ text. flat_map untaken_bytes_of_part (drop text.at text.parts.items) };

    ghost invariant = { λ text. text.at ≤ vec_len text.parts };
}

impl CertificateText {
    /// Creates a text without bytes.
    pub fn empty(alloc: Global) -> CertificateText
        ensures { result ≡ [] }
    {
        CertificateText {
            parts: Vec::new(alloc),
            at: 0,
        }
    }

    fn add(&mut self, part: Part) -> Result<(), AllocError>
        ensures { OnOk result (self.new ≡ self.old ++ untaken_bytes_of_part part) }
    {
        self.parts.push(part)?;
        Ok(())
    }

    fn add_lines(&mut self, lines: Vec<u8>) -> Result<(), AllocError>
        ensures { OnOk result (self.new ≡ self.old ++ lines.items) }
    {
        self.add(Part::Lines(RemainingBytes::from_bytes(lines)))
    }

    fn add_asked(&mut self, alloc: Global, asked: Asked) -> Result<(), AllocError>
        ensures { OnOk result (self.new ≡ self.old ++ query_and_log_text asked) }
    {
        let Asked { query, log } = asked;
        let mut line = String::new(alloc);
        push_query(&mut line, query)?;
        self.add_lines(line.into_bytes())?;
        self.add(Part::Log(LogText::from_log(alloc, log)))
    }

    fn add_all(&mut self, alloc: Global, asked: Row<Asked>) -> Result<(), AllocError>
        ensures { OnOk result
            (self.new ≡ self.old ++ text_of (flat_map query_and_log_lines asked)) }
    {
        let mut left = asked;
        'queries: while left.len() > 0 {
            self.add_asked(alloc, left.remove(0))?;
        }
        Ok(())
    }

    fn add_next(&mut self, alloc: Global, next: Asked, left: &Row<Asked>) -> Result<(), AllocError>
        ensures { OnOk result
            (self.new ++ text_without_nonfinal_step_queries left.now ≡ self.old ++
            text_without_nonfinal_step_queries (next ∷ left.now)) }
    {
        if left.len() > 0 && is_step(next.query) {
            return Ok(());
        }
        self.add_asked(alloc, next)
    }

    fn add_kept(&mut self, alloc: Global, asked: Row<Asked>) -> Result<(), AllocError>
        ensures { OnOk result (self.new ≡ self.old ++ text_without_nonfinal_step_queries asked) }
    {
        let mut left = asked;
        'queries: while left.len() > 0 {
            let next = left.remove(0);
            self.add_next(alloc, next, &left)?;
        }
        Ok(())
    }

    fn begun(alloc: Global, word: &str, number: u128) -> Result<CertificateText, AllocError>
        ensures { IfOk result
            (λ text. text
            ≡ text_of (codes "irv certificate 3" ∷ join_word_and_rest word.now
            (decimal number) ∷ [])) }
    {
        let mut text = CertificateText::empty(alloc);
        text.add_lines(header_text(alloc, word, number)?.into_bytes())?;
        Ok(text)
    }

    fn end(&mut self, alloc: Global) -> Result<(), AllocError>
        ensures { OnOk result (self.new ≡ self.old ++ codes "end\n") }
    {
        let line = String::from_str(alloc, "end\n")?;
        self.add_lines(line.into_bytes())
    }

    /// Creates the text that states that a system is safe at `k`, from the queries `asked`. It
    /// omits the step queries before the last query, which had runs. Fails only if memory runs out.
    pub fn safe(alloc: Global, k: u32, asked: Row<Asked>) -> Result<CertificateText, AllocError>
        ensures { IfOk result (λ text. text ≡ safe_text k (drop_nonfinal_step_queries asked)) }
    {
        let mut text = CertificateText::begun(alloc, "safe", k as u128)?;
        text.add_kept(alloc, asked)?;
        text.end(alloc)?;
        Ok(text)
    }

    /// Creates the text that states that all conflicts are spent, from the queries `asked` until
    /// then. Fails only if memory runs out.
    pub fn spent(alloc: Global, asked: Row<Asked>) -> Result<CertificateText, AllocError>
        ensures { IfOk result (λ text. text ≡ spent_text (total_conflicts asked) asked) }
    {
        let count = total_conflicts(asked.as_slice());
        let mut text = CertificateText::begun(alloc, "spent", count)?;
        text.add_all(alloc, asked)?;
        text.end(alloc)?;
        Ok(text)
    }

    /// Copies the next bytes to the front of `into`, as many as fit, and returns their number.
    /// Allocates no memory.
    pub fn take(&mut self, into: &mut [u8]) -> usize
        ensures count { result ≡ min (length into.old) (length self.old) }
        ensures bytes { take result into.new ≡ take result self.old }
        ensures rest { self.new ≡ drop result self.old }
    {
        let mut count = 0;
        'parts: while self.at < self.parts.len() {
            let part = &mut self.parts[self.at];
            count += part.take(&mut into[count..]);
            if count == into.len() {
                return count;
            }
            self.at += 1;
        }
        count
    }
}
