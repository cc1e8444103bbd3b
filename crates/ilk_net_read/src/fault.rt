//! The rules of a configuration's form, and the location of a violation.

ghost use Rattle.std.specs.Prelude.{◌≡◌};
ghost use Rattle.ilk_net_read.specs.declared.fault.ValueReadError.TheVariants.{OutOfMemory as NoMemory};
ghost use Rattle.ilk_net_read.specs.declared.fault.FormError.TheVariants.{Fault, OutOfMemory};
ghost use Rattle.ilk_net_read.specs.Fault.{into_form_error_at, rule_fault_at_place as broken_below};

use std::alloc::AllocError;
use thiserror::Error;

/// A rule that the form of a configuration has to keep.
#[derive(Clone, Copy, PartialEq, Eq, Debug)]
pub enum Form {
    /// The configuration has at most 4194304 bytes, and the other input file at most the limit of
    /// its kind.
    F1,
    /// The configuration is a JSON text.
    F2,
    /// Each member of an object is present, known and of its kind.
    F3,
    /// The version is 1 or 2.
    F4,
    /// A name has 1 to `MAX_NAME` of the characters `A-Z a-z 0-9 _ -`.
    F5,
    /// The length of each list is within its limits.
    F6,
}

/// The location of a violation: the whole document, the extra input file, or a section or route by
/// number from 0.
#[derive(Clone, Copy, PartialEq, Eq, Debug)]
pub enum Place {
    Document,
    Extra,
    Section(u32),
    Route(u32),
}

/// A violated rule of the form, and its location.
#[derive(Clone, Copy, PartialEq, Eq, Debug)]
pub struct FormFault {
    pub rule: Form,
    pub place: Place,
}

/// The reason why a configuration isn't read: the first violated rule of its form, or memory ran
/// out.
#[derive(Debug, Drop, Error)]
pub enum FormError {
    #[error("the configuration breaks a rule of its form")]
    Fault(FormFault),
    #[error("out of memory")]
    OutOfMemory,
}

impl From<AllocError> for FormError {
    ghost from_gives = { λ _ e. e ≡ OutOfMemory };

    fn from(_refused: AllocError) -> FormError {
        FormError::OutOfMemory
    }
}

/// Returns the error that says that `rule` is violated at `place`.
pub fn rule_error_at_place(rule: Form, place: Place) -> FormError
    ensures { result ≡ Fault (broken_below rule place) }
{
    FormError::Fault(FormFault { rule, place })
}

/// The reason why a JSON value isn't read: it isn't of the expected kind, or memory ran out.
#[derive(Debug, Drop, Error)]
pub enum ValueReadError {
    #[error("a member is missing, unknown or of the wrong kind")]
    WrongKind,
    #[error("out of memory")]
    OutOfMemory,
}

impl ValueReadError {
    /// Returns the error of a configuration's reader for a value read at `place`: a violation of F3
    /// there, or out of memory.
    pub fn into_form_error_at(self, place: Place) -> FormError
        ensures { result ≡ into_form_error_at self place }
    {
        match self {
            ValueReadError::WrongKind => rule_error_at_place(Form::F3, place),
            ValueReadError::OutOfMemory => FormError::OutOfMemory,
        }
    }
}

impl From<AllocError> for ValueReadError {
    ghost from_gives = { λ _ e. e ≡ NoMemory };

    fn from(_refused: AllocError) -> ValueReadError {
        ValueReadError::OutOfMemory
    }
}
