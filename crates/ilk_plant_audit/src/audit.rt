use ilk_behave::behaviour;
use ilk_cert_audit::{Ended, Fed, SystemCertAudit};
use ilk_plant::Plant;
use ilk_queries::goal;
use std::alloc::{AllocError, Global};
use std::marker::Model;

/// A check whether bytes are a certificate of a plant; the bytes come in pieces.
#[derive(Drop)]
pub struct CertAudit<'a> {
    plant: &'a Plant,
    audit: SystemCertAudit,
}

impl<'a> Model for CertAudit<'a> {
    ghost use Rattle.std.specs.Coded.{codes};
    ghost use Rattle.ilk_ir.specs.contracts.form.Form as form;
    ghost use Rattle.ilk_plant_audit.specs.PlantAudit.{PlantAudit};

    ghost Value = { PlantAudit };

    ghost coded = { Prim.hlevel (codes, form.the_row.coded) };

    ghost view = { λ a. record { plant = a.plant.now; audit = a.audit } };
}

impl<'a> CertAudit<'a> {
    ghost use Rattle.std.specs.Prelude.{◌≡◌, ℕ, List, [], ◌++◌, IfOk, OnOk};
    ghost use Rattle.ilk_plant_audit.specs.Audited.{AnswersEnd, NamesBadLineSoFar, HasAuditedBytes};

    /// Creates a check for `plant` that has taken no byte. Fails only if memory runs out.
    pub fn new(alloc: Global, plant: &'a Plant) -> Result<CertAudit<'a>, AllocError>
        ensures plant { IfOk result (λ audit. audit.plant ≡ plant.now) }
        ensures fed { IfOk result (λ audit. HasAuditedBytes audit []) }
    {
        let system = behaviour(alloc, plant)?;
        let goal = goal(alloc, plant)?;
        Ok(CertAudit {
            plant,
            audit: SystemCertAudit::new(alloc, system, goal),
        })
    }

    /// Takes the next bytes, of any length, and returns the first bad line so far, if any. The
    /// answer doesn't depend on how the bytes are divided. After an error, the check is unusable.
    pub fn feed(&mut self, piece: &[u8]) -> Result<Fed, AllocError>
        ensures plant { self.new.plant ≡ self.old.plant }
        ensures fed { OnOk result
            ((bytes : List ℕ) → HasAuditedBytes self.old bytes
            → HasAuditedBytes self.new (bytes ++ piece.now)) }
        ensures answer { IfOk result (λ fed. (bytes : List ℕ) → HasAuditedBytes self.old bytes
            → NamesBadLineSoFar self.old.plant (bytes ++ piece.now) fed) }
    {
        self.audit.feed(piece)
    }

    /// Returns whether all bytes taken are a certificate of the plant, and for which number, or the
    /// first bad line.
    pub fn end(self) -> Ended
        ensures { (bytes : List ℕ) → HasAuditedBytes self.entry bytes
            → AnswersEnd self.entry.plant bytes result }
    {
        self.audit.end()
    }
}
