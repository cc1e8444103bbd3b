//! The meaning of command-line arguments, as `clap` documents it.
use crate::parts::words;
use ilk_base::Text;
use ilk_words::{
    ColumnRuleMode, Command, ConfCommand, ConfCommandWithoutExtra, ExtraCommand, StationsCommand,
    names_of, parse_arguments,
};
use std::alloc::{AllocError, Global};
use std::test::Fail;

fn shown(alloc: Global, line: &str) -> Result<String, AllocError> {
    let words = words(alloc, line)?;
    match parse_arguments(alloc, &words)? {
        None => String::from_str(alloc, "usage"),
        Some(command) => shown_command(alloc, command),
    }
}

fn shown_command(alloc: Global, command: Command) -> Result<String, AllocError> {
    match command {
        Command::Conf { columns, command } => match command {
            ConfCommand::Plain(command) => shown_plain(alloc, columns, command),
            ConfCommand::WithExtra { file, command } => shown_extra(alloc, columns, file, command),
        },
        Command::Stations { stations, command } => match command {
            StationsCommand::Make => format!(in alloc; "make {stations}"),
            StationsCommand::Demo {
                depth,
                conflicts,
                cert,
            } => {
                let cert = cert.into_string();
                format!(in alloc; "demo {stations} {depth} {conflicts} '{cert}'")
            }
        },
    }
}

fn shown_plain(
    alloc: Global,
    columns: ColumnRuleMode,
    command: ConfCommandWithoutExtra,
) -> Result<String, AllocError> {
    match command {
        ConfCommandWithoutExtra::Check => format!(in alloc; "check {columns:?}"),
        ConfCommandWithoutExtra::Verify {
            depth,
            conflicts,
            cert,
        } => {
            let cert = cert.into_string();
            format!(in alloc; "verify {columns:?} {depth} {conflicts} '{cert}'")
        }
        ConfCommandWithoutExtra::Table => format!(in alloc; "table {columns:?}"),
        ConfCommandWithoutExtra::Export { query, number } => {
            format!(in alloc; "export {columns:?} {query:?} {number}")
        }
    }
}

fn shown_extra(
    alloc: Global,
    columns: ColumnRuleMode,
    file: Text,
    command: ExtraCommand,
) -> Result<String, AllocError> {
    let file = file.into_string();
    match command {
        ExtraCommand::Audit => format!(in alloc; "audit {columns:?} '{file}'"),
        ExtraCommand::Replay => format!(in alloc; "replay {columns:?} '{file}'"),
        ExtraCommand::Rup { query, number } => {
            format!(in alloc; "rup {columns:?} {query:?} {number} '{file}'")
        }
        ExtraCommand::Drive => format!(in alloc; "drive {columns:?} '{file}'"),
    }
}

fn shown_name(alloc: Global, name: Option<Text>) -> Result<String, AllocError> {
    match name {
        None => String::from_str(alloc, "none"),
        Some(name) => Ok(name.into_string()),
    }
}

// The expectations follow the documentation of `clap` 4. `ArgAction::Set` refuses a second use, an
// option may have its value attached by `=`, and after `--` each argument is a positional. A number
// is read as `u64::from_str` reads it, within its range.
#[test]
fn reads_lines(rt: HostRuntime) -> Result<(), Fail> {
    let alloc = rt.alloc();
    let lines = [
        ("irv", "usage"),
        ("irv check", "check Strict"),
        ("irv check --columns strict", "check Strict"),
        ("irv --columns free check", "check Free"),
        ("irv check --columns loose", "usage"),
        ("irv check --columns", "usage"),
        ("irv check --run r", "usage"),
        ("irv check check", "usage"),
        ("irv check --depth 3", "usage"),
        ("irv verify", "usage"),
        ("irv verify --cert c", "verify Strict 4 100000 'c'"),
        ("irv verify --cert c --cert c", "usage"),
        ("irv verify --cert c --run r", "usage"),
        ("irv verify --cert c --depth 0", "usage"),
        (
            "irv verify --cert c --depth 1",
            "verify Strict 1 100000 'c'",
        ),
        (
            "irv verify --cert c --depth 16",
            "verify Strict 16 100000 'c'",
        ),
        ("irv verify --cert c --depth 17", "usage"),
        (
            "irv verify --cert c --depth 007",
            "verify Strict 7 100000 'c'",
        ),
        (
            "irv verify --cert c --depth +3",
            "verify Strict 3 100000 'c'",
        ),
        ("irv verify --cert c --depth 3.0", "usage"),
        ("irv verify --cert c --depth=", "usage"),
        ("irv verify --cert c --conflicts 0", "verify Strict 4 0 'c'"),
        ("irv verify --cert c --conflicts=-0", "usage"),
        ("irv verify --cert c --conflicts 200001", "usage"),
        (
            "irv --columns=free --conflicts=200000 --depth=2 --cert=c verify",
            "verify Free 2 200000 'c'",
        ),
        ("irv replay", "usage"),
        ("irv replay --run", "usage"),
        ("irv replay --run r", "replay Strict 'r'"),
        ("irv replay --run=r --columns=free", "replay Free 'r'"),
        ("irv replay --run=", "replay Strict ''"),
        ("irv replay --run -", "replay Strict '-'"),
        ("irv replay --run r --run s", "usage"),
        ("irv --run r -- replay", "replay Strict 'r'"),
        ("irv replay -- --run r", "usage"),
        ("irv export", "usage"),
        ("irv export --query hazard", "usage"),
        ("irv export --number 0", "usage"),
        (
            "irv export --query hazard --number 0",
            "export Strict Hazard 0",
        ),
        (
            "irv export --query breach --number 0",
            "export Strict Breach 0",
        ),
        ("irv export --query step --number 0", "usage"),
        ("irv export --query step --number 1", "export Strict Step 1"),
        ("irv export --query Step --number 1", "usage"),
        ("irv export --query step --number 17", "usage"),
        (
            "irv export --query=step --number=16 --columns=free",
            "export Free Step 16",
        ),
        ("irv export --query step --number 1 --depth 4", "usage"),
        ("irv audit", "usage"),
        ("irv audit --cert c", "audit Strict 'c'"),
        ("irv audit --cert c --columns free", "audit Free 'c'"),
        ("irv audit --cert c --depth 4", "usage"),
        ("irv make", "usage"),
        ("irv make --stations 0", "usage"),
        ("irv make --stations 1", "make 1"),
        ("irv make --stations 16", "make 16"),
        ("irv make --stations 17", "usage"),
        ("irv make --stations 1 --columns free", "usage"),
        ("irv demo --stations 2", "usage"),
        ("irv demo --cert c", "usage"),
        ("irv demo --stations 2 --cert c", "demo 2 4 100000 'c'"),
        (
            "irv demo --stations 2 --cert c --depth 1 --conflicts 0",
            "demo 2 1 0 'c'",
        ),
        ("irv demo --stations 2 --cert c --run r", "usage"),
        ("irv table", "table Strict"),
        ("irv table --columns free", "table Free"),
        ("irv table --cert c", "usage"),
        ("irv rup --query hazard --number 0", "usage"),
        (
            "irv rup --query hazard --number 0 --cert c",
            "rup Strict Hazard 0 'c'",
        ),
        ("irv rup --query step --number 0 --cert c", "usage"),
        ("irv drive", "usage"),
        ("irv drive --run r", "drive Strict 'r'"),
        ("irv drive --run r --cert c", "usage"),
        ("irv prove", "usage"),
        ("irv --help", "usage"),
        ("irv check -h", "usage"),
    ];
    for (line, want) in lines {
        let got = shown(alloc, line)?;
        assert_eq!(rt; got.as_str(), want, "at {line}");
    }
    Ok(())
}

#[test]
fn names_files(rt: HostRuntime) -> Result<(), Fail> {
    let alloc = rt.alloc();
    let wrong = words(alloc, "irv check --run r")?;
    assert!(rt; names_of(alloc, &wrong)?.is_none());
    let lines = [
        ("irv check", "none", "none"),
        ("irv verify --cert c", "none", "c"),
        ("irv audit --cert c", "c", "none"),
        ("irv replay --run r", "r", "none"),
        ("irv make --stations 1", "none", "none"),
        ("irv demo --stations 1 --cert c", "none", "c"),
        ("irv table", "none", "none"),
        ("irv export --query hazard --number 0", "none", "none"),
        ("irv rup --query step --number 1 --cert c", "c", "none"),
        ("irv drive --run r", "r", "none"),
    ];
    for (line, read, written) in lines {
        let words = words(alloc, line)?;
        let names = names_of(alloc, &words)?.ok_or("a command")?;
        let extra = shown_name(alloc, names.extra)?;
        let cert = shown_name(alloc, names.cert)?;
        assert_eq!(rt; extra.as_str(), read, "at {line}");
        assert_eq!(rt; cert.as_str(), written, "at {line}");
    }
    Ok(())
}
