ghost use Rattle.std.specs.Prelude.{[], IfOk, OnOk};
ghost use Rattle.ilk_answers.specs.Reader.{ReaderHasReadExtraInput, ReaderWasFedBytes};

use ilk_plant::Plant;
use ilk_plant_audit::CertAudit;
use ilk_words::{ExtraCommand, QueryKind};
use std::alloc::{AllocError, Global};

/// A reader of a command's extra input, which is fed in pieces. For `audit` it keeps the state of
/// the check, for other commands the whole text.
#[derive(Drop)]
pub enum ExtraInputReader<'a> {
    /// The state of the certificate's check.
    Certificate(CertAudit<'a>),
    /// The text of a run.
    Run(Vec<u8>),
    /// The text of a refutation of a query's formula.
    Refutation {
        query: QueryKind,
        number: u32,
        text: Vec<u8>,
    },
    /// The text of a scenario.
    Scenario(Vec<u8>),
}

impl<'a> ExtraInputReader<'a> {
    /// Creates the reader of the extra input of `command` on `plant`; nothing was fed yet.
    pub fn new(
        alloc: Global,
        command: ExtraCommand,
        plant: &'a Plant,
    ) -> Result<ExtraInputReader<'a>, AllocError>
        ensures { IfOk result (λ reader. ReaderHasReadExtraInput command plant.now reader []) }
    {
        match command {
            ExtraCommand::Audit => Ok(ExtraInputReader::Certificate(CertAudit::new(alloc, plant)?)),
            ExtraCommand::Replay => Ok(ExtraInputReader::Run(Vec::new(alloc))),
            ExtraCommand::Rup { query, number } => Ok(ExtraInputReader::Refutation {
                query,
                number,
                text: Vec::new(alloc),
            }),
            ExtraCommand::Drive => Ok(ExtraInputReader::Scenario(Vec::new(alloc))),
        }
    }

    /// Feeds the next piece of the input. After an error, the reader is of no further use. A bad
    /// line of a certificate is reported only at the end of the input.
    #[tactic(auto, using(crate::proofs::Readers::audit_fed))]
    pub fn feed(&mut self, piece: &[u8]) -> Result<(), AllocError>
        ensures { OnOk result (ReaderWasFedBytes self.old self.new piece.now) }
    {
        match self {
            ExtraInputReader::Certificate(audit) => {
                audit.feed(piece)?;
                Ok(())
            }
            ExtraInputReader::Run(text) => text.extend_from_slice(piece),
            ExtraInputReader::Refutation { text, .. } => text.extend_from_slice(piece),
            ExtraInputReader::Scenario(text) => text.extend_from_slice(piece),
        }
    }
}
