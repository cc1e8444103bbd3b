ghost use Rattle.std.specs.Prelude.{◌<◌};

use crate::plants::plant_from_configuration;
use crate::texts::line;
use ilk_engine::{
    CertAudit, CertificateText, Ended, Fed, Found, certificate, decide, lazy_certificate_text,
};
use ilk_plant::Plant;
use std::alloc::{AllocError, Global};
use std::test::Fail;

// Returns the certificate as a whole.
fn written(alloc: Global, plant: &Plant) -> Result<Vec<u8>, AllocError> {
    let found = decide(alloc, plant, 1, 100)?;
    certificate(alloc, &found)
}

// Returns the certificate in pieces.
fn certified(alloc: Global, plant: &Plant) -> Result<CertificateText, AllocError> {
    let Found { verdict, asked } = decide(alloc, plant, 1, 100)?;
    lazy_certificate_text(alloc, &verdict, asked)
}

// Returns whether the text taken in pieces is `whole`.
fn is_taken(text: &mut CertificateText, whole: &[u8]) -> bool {
    for piece in whole.chunks(7) {
        let mut taken = [0; 7];
        let count = text.take(&mut taken);
        if count != piece.len() || !taken.starts_with(piece) {
            return false;
        }
    }
    text.take(&mut [0]) == 0
}

// Returns the end of an audit of a text in pieces of at most `length` bytes, with an empty piece
// after each.
fn ended(alloc: Global, plant: &Plant, text: &[u8], length: usize) -> Result<Ended, AllocError>
    requires { 0 < length }
{
    let mut audit = CertAudit::new(alloc, plant)?;
    for piece in text.chunks(length) {
        audit.feed(piece)?;
        audit.feed(b"".as_slice())?;
    }
    Ok(audit.end())
}

// Returns the k of an accepted text, or 0.
fn accepted(ended: Ended) -> u32 {
    match ended {
        Ended::Accepted { k } => k,
        Ended::Rejected { .. } => 0,
    }
}

// Returns the first bad line, or 0 if there is none.
fn rejected(ended: Ended) -> u64 {
    match ended {
        Ended::Accepted { .. } => 0,
        Ended::Rejected { line } => line,
    }
}

#[test]
fn a_certificate_whole_and_in_pieces(rt: HostRuntime) -> Result<(), Fail> {
    let alloc = rt.alloc();
    let plant = plant_from_configuration(alloc, line())?;
    let whole = written(alloc, &plant)?;
    let head = b"irv certificate 3\nsafe 1\nquery hazard 0\n";
    assert!(rt; whole.as_slice().starts_with(head.as_slice()));
    assert!(rt; whole.as_slice().ends_with(b"\nend\n".as_slice()));
    let mut text = certified(alloc, &plant)?;
    assert!(rt; is_taken(&mut text, whole.as_slice()));
    Ok(())
}

#[test]
fn a_certificate_in_pieces_of_any_length(rt: HostRuntime) -> Result<(), Fail> {
    let alloc = rt.alloc();
    let plant = plant_from_configuration(alloc, line())?;
    let whole = written(alloc, &plant)?;
    for length in [1, 7, 65536] {
        let ended = ended(alloc, &plant, whole.as_slice(), length)?;
        assert_eq!(rt; accepted(ended), 1, "pieces of {length}");
    }
    Ok(())
}

// The first bad line, a query that is asked twice, is the same in pieces of any length.
#[test]
fn a_bad_line_in_pieces_of_any_length(rt: HostRuntime) -> Result<(), Fail> {
    let alloc = rt.alloc();
    let plant = plant_from_configuration(alloc, line())?;
    let twice = b"irv certificate 3\nsafe 1\nquery hazard 0\nquery hazard 0\n";
    for length in [1, 7, 65536] {
        let ended = ended(alloc, &plant, twice.as_slice(), length)?;
        assert_eq!(rt; rejected(ended), 4, "pieces of {length}");
    }
    Ok(())
}

// After a bad line each piece is answered with that line.
#[test]
fn a_bad_line_stays(rt: HostRuntime) -> Result<(), Fail> {
    let alloc = rt.alloc();
    let plant = plant_from_configuration(alloc, line())?;
    let mut audit = CertAudit::new(alloc, &plant)?;
    for piece in ["irv certificate", " 2\n", "", "safe 1\n"] {
        let answer = match audit.feed(piece.as_bytes())? {
            Fed::More => 0,
            Fed::Bad { line } => line,
        };
        assert_eq!(rt; answer, if piece == "irv certificate" { 0 } else { 1 });
    }
    assert_eq!(rt; rejected(audit.end()), 1);
    Ok(())
}
