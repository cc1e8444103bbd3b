ghost use Rattle.std.specs.Prelude.{◌≡◌, [], drop, length, min, take};

use ilk_dimacs::FormulaText;
use ilk_engine::CertificateText;
use ilk_lines::RemainingBytes;
use std::alloc::Global;
use std::marker::Model;

#[derive(Drop)]
enum Source {
    Bytes(RemainingBytes),
    // Made as they are taken, from the logs of a certificate.
    Certificate(CertificateText),
    // Made as they are taken, from the clauses of a formula.
    Formula(FormulaText),
}

/// Output bytes that are still to be written. The text of a certificate or formula is made only as
/// it is taken, so it is never in memory as a whole. Taking bytes allocates nothing.
#[derive(Drop)]
pub struct PendingOutput {
    source: Source,
}

impl Model for PendingOutput {
    ghost use Rattle.std.specs.Prelude.{ℕ, List};

    ghost Value = { List ℕ };

    ghost use Rattle.ilk_answers.specs.Untaken.{pending_output_bytes};

    ghost view = { λ content. pending_output_bytes content.source };
}

impl PendingOutput {
    /// Creates an output without bytes.
    pub fn empty(alloc: Global) -> PendingOutput
        ensures { result ≡ [] }
    {
        PendingOutput::from_bytes(Vec::new(alloc))
    }

    /// Creates an output of `bytes`, held in memory.
    pub fn from_bytes(bytes: Vec<u8>) -> PendingOutput
        ensures { result ≡ bytes.items }
    {
        PendingOutput {
            source: Source::Bytes(RemainingBytes::from_bytes(bytes)),
        }
    }

    /// Creates an output of a certificate's text.
    pub fn from_certificate(text: CertificateText) -> PendingOutput
        ensures { result ≡ text }
    {
        PendingOutput {
            source: Source::Certificate(text),
        }
    }

    /// Creates an output of a formula's text.
    pub fn from_formula(text: FormulaText) -> PendingOutput
        ensures { result ≡ text }
    {
        PendingOutput {
            source: Source::Formula(text),
        }
    }

    /// Moves the next bytes into the front of `into`, as many as there are and as fit. Returns
    /// their number.
    pub fn take(&mut self, into: &mut [u8]) -> usize
        ensures count { result ≡ min (length into.old) (length self.old) }
        ensures bytes { take result into.new ≡ take result self.old }
        ensures rest { self.new ≡ drop result self.old }
    {
        match &mut self.source {
            Source::Bytes(bytes) => bytes.take(into),
            Source::Certificate(text) => text.take(into),
            Source::Formula(text) => text.take(into),
        }
    }
}
