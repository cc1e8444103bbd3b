//! The program over sources and sinks that fail: an answer comes if memory suffices, and each fault
//! has its status.
use crate::runs::{
    Asked, ExtraBytesPerSinkCall, Object, StatusReportAndCertificate, run_with_fault,
};
use ilk_top::Status;
use std::alloc::{AllocError, Global};
use std::test::Fail;

const TWO_SECTIONS: &str =
    r#"{"version":1,"sections":[{"name":"a","kind":"linear","down":null,"up":"b","board_down":null,"board_up":null},{"name":"b","kind":"linear","down":"a","up":null,"board_down":null,"board_up":null}],"routes":[]}"#;

const LINE_WITH_BOARDS: &str =
    r#"{"version":1,"sections":[{"name":"a","kind":"linear","down":null,"up":"b","board_down":null,"board_up":"m1"},{"name":"b","kind":"linear","down":"a","up":null,"board_down":"m2","board_up":null}],"routes":[{"name":"r1","source":"m1","destination":null,"path":["b"],"overlap":[],"points":[],"conflicts":[]},{"name":"r2","source":"m2","destination":null,"path":["a"],"overlap":[],"points":[],"conflicts":[]}]}"#;

const EMPTY_SCENE: &str = "drive 1\nend\n";

const TWO_TRAINS: &str = "run 1\nstart\nenter a\nenter b\nhead a\nend\n";

// A bound on the calls that are made to fail; no object is called this often.
const ENOUGH: u64 = 100;

// A whole text is taken in at most this number of calls.
const CALLS: usize = 16;

// Returns whether these are the first bytes of the whole text, and not all.
fn is_begun(bytes: &[u8], whole: &[u8]) -> bool {
    whole.starts_with(bytes) && bytes.len() < whole.len()
}

// Returns whether this is what a failed call of the object leaves.
fn is_cut_off(
    left: &StatusReportAndCertificate,
    whole: &StatusReportAndCertificate,
    failing: Object,
) -> bool {
    let (out, cert) = (left.out.bytes(), left.cert.bytes());
    match failing {
        Object::Conf | Object::Extra => {
            left.status == Status::ReadFault && out.is_empty() && cert.is_empty()
        }
        Object::Cert => {
            left.status == Status::WriteFault
                && out.is_empty()
                && is_begun(cert, whole.cert.bytes())
        }
        Object::Out => {
            left.status == Status::WriteFault
                && is_begun(out, whole.out.bytes())
                && cert == whole.cert.bytes()
        }
    }
}

fn is_whole(left: &StatusReportAndCertificate, whole: &StatusReportAndCertificate) -> bool {
    left.status == whole.status
        && left.out.bytes() == whole.out.bytes()
        && left.cert.bytes() == whole.cert.bytes()
}

// Lets the first call of the object fail, then the second, until a run meets no failure. Returns
// the number of failures, or `None` if a run left something wrong.
fn failing_calls(
    alloc: Global,
    asked: Asked,
    whole: &StatusReportAndCertificate,
    more: ExtraBytesPerSinkCall,
    failing: Object,
) -> Result<Option<u64>, AllocError> {
    for number in 1..ENOUGH {
        let left = run_with_fault(alloc, asked, more, failing, number)?;
        if is_whole(&left, whole) {
            return Ok(Some(number - 1));
        }
        if !is_cut_off(&left, whole, failing) {
            return Ok(None);
        }
    }
    Ok(None)
}

// The expected answer, and the number of calls of the two sources: two if all is read, for the
// bytes and for their end.
#[derive(Clone, Copy)]
struct Wanted<'a> {
    reads: (u64, u64),
    status: Status,
    report: &'a str,
}

// Returns whether the answer is the expected one, and each failing call leaves what it has to.
fn each_call_fails(alloc: Global, asked: Asked, wanted: Wanted) -> Result<bool, AllocError> {
    let at_once = ExtraBytesPerSinkCall {
        out: usize::MAX,
        cert: usize::MAX,
    };
    let whole = run_with_fault(alloc, asked, at_once, Object::Conf, 0)?;
    let (out, cert) = (whole.out.bytes().len(), whole.cert.bytes().len());
    let more = ExtraBytesPerSinkCall {
        out: out / CALLS,
        cert: cert / CALLS,
    };
    let conf_calls = failing_calls(alloc, asked, &whole, more, Object::Conf)?;
    let extra_calls = failing_calls(alloc, asked, &whole, more, Object::Extra)?;
    let out_calls = failing_calls(alloc, asked, &whole, more, Object::Out)?;
    let cert_calls = failing_calls(alloc, asked, &whole, more, Object::Cert)?;
    Ok(
        whole.status == wanted.status
            && whole.out.bytes().starts_with(wanted.report.as_bytes())
            && conf_calls == Some(wanted.reads.0)
            && extra_calls == Some(wanted.reads.1)
            && out_calls == Some(out.div_ceil(more.out + 1) as u64)
            && cert_calls == Some(cert.div_ceil(more.cert + 1) as u64),
    )
}

fn fails_over(
    alloc: Global,
    line: &str,
    conf: &str,
    extra: &[u8],
    reads: (u64, u64),
    status: Status,
    report: &str,
) -> Result<bool, AllocError> {
    let asked = Asked { line, conf, extra };
    let wanted = Wanted {
        reads,
        status,
        report,
    };
    each_call_fails(alloc, asked, wanted)
}

fn audit_fails(alloc: Global, line: &str) -> Result<bool, AllocError> {
    let verify = Asked {
        line: "irv verify --cert c",
        conf: LINE_WITH_BOARDS,
        extra: &[],
    };
    let at_once = ExtraBytesPerSinkCall {
        out: usize::MAX,
        cert: usize::MAX,
    };
    let verified = run_with_fault(alloc, verify, at_once, Object::Conf, 0)?;
    fails_over(
        alloc,
        line,
        LINE_WITH_BOARDS,
        verified.cert.bytes(),
        (2, 2),
        Status::Good,
        "accepted k=1\n",
    )
}

fn line_fails(
    alloc: Global,
    line: &str,
    extra: &str,
    reads: u64,
    report: &str,
) -> Result<bool, AllocError> {
    fails_over(
        alloc,
        line,
        LINE_WITH_BOARDS,
        extra.as_bytes(),
        (2, reads),
        Status::Good,
        report,
    )
}

#[test]
fn each_call_fails_in_turn(rt: HostRuntime) -> Result<(), Fail> {
    let alloc = rt.alloc();
    for (line, extra, reads, report) in [
        ("irv check", "", 0, "clean\n"),
        ("irv verify --cert c", "", 0, "safe k=1\n"),
        ("irv table", "", 0, "{"),
        ("irv export --query hazard --number 0", "", 0, "p cnf "),
        (
            "irv rup --query hazard --number 0 --cert c",
            "",
            1,
            "refuted hazard 0\n",
        ),
        (
            "irv drive --run r",
            EMPTY_SCENE,
            2,
            "driven steps=0\nrun 1\nstart\nend\n",
        ),
    ] {
        assert!(rt; line_fails(alloc, line, extra, reads, report)?, "at {line}");
    }
    assert!(rt; audit_fails(alloc, "irv audit --cert c")?);
    Ok(())
}

// Commands that read nothing, and `replay` over a plant that two trains may enter.
#[test]
fn each_call_fails_in_turn_elsewhere(rt: HostRuntime) -> Result<(), Fail> {
    let alloc = rt.alloc();
    for (line, conf, extra, reads, status, report) in [
        (
            "irv replay --columns free --run r",
            TWO_SECTIONS,
            TWO_TRAINS,
            (2, 2),
            Status::Good,
            "hazard two b\n",
        ),
        ("irv make --stations 1", "", "", (0, 0), Status::Good, "{"),
        (
            "irv demo --stations 1 --conflicts 0 --cert c",
            "",
            "",
            (0, 0),
            Status::Spent,
            "stations=1 sections=6 routes=8 spent conflicts=0\n",
        ),
    ] {
        let fails = fails_over(alloc, line, conf, extra.as_bytes(), reads, status, report)?;
        assert!(rt; fails, "at {line}");
    }
    Ok(())
}
