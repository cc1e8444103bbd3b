//! The meaning of a line: `chosen` finds the command, and one function for each command reads its
//! options.
ghost use Rattle.std.specs.Prelude.{◌≡◌, IfOk, IfSome, IsTrue, map, string_bytes};
ghost use Rattle.clap.specs.Words.{first_value, found_of};
ghost use Rattle.ilk_words.specs.Commands.{audit_command_spec, check_command_spec, demo_command_spec, drive_command_spec};
ghost use Rattle.ilk_words.specs.Commands.{export_command_spec, make_command_spec, replay_command_spec, rup_command_spec};
ghost use Rattle.ilk_words.specs.Commands.{table_command_spec, verify_command_spec};
ghost use Rattle.ilk_words.specs.Limits.{within_option_limits};
ghost use Rattle.ilk_words.specs.Words.{parsed_command, command_from_args, command_if_only_own_options};

use crate::line::{
    AUDIT, CERT, CHECK, COLUMNS, CONFLICTS, DEMO, DEPTH, DRIVE, EXPORT, MAKE, NUMBER, QUERY,
    REPLAY, RUN, RUP, STATIONS, TABLE, VERIFY, line_command,
};
use crate::options::{columns, conflicts, depth, has_only, number, query, stations};
use crate::{Command, ConfCommand, ConfCommandWithoutExtra, ExtraCommand, StationsCommand};
use clap::ArgMatches;
use clap::error::ErrorKind;
use ilk_base::Text;
use std::alloc::{AllocError, Global};

/// Returns the command in the arguments `words`, whose first is the program's name. Its numbers are
/// within their limits. Returns `None` if:
///
/// - `clap` rejects the arguments, as it does for a request for help.
/// - An option belongs to another command, or a required one is missing.
/// - A step query for 0 events is asked for.
pub fn parse_arguments(alloc: Global, words: &Vec<String>) -> Result<Option<Command>, AllocError>
    ensures command { IfOk result (λ c. c ≡ parsed_command (map string_bytes words.now.items)) }
    ensures options { IfOk result
        (λ c. IfSome c (λ command. IsTrue (within_option_limits command))) }
{
    match line_command(alloc)?.try_get_matches_from(words.as_slice()) {
        Ok(matches) => chosen(alloc, &matches),
        Err(error) => match error.kind() {
            ErrorKind::OutOfMemory => Err(AllocError),
            _ => Ok(None),
        },
    }
}

fn chosen(alloc: Global, matches: &ArgMatches<'_>) -> Result<Option<Command>, AllocError>
    ensures { IfOk result (λ c. c ≡ command_from_args (first_value (found_of matches.now))) }
{
    match matches.get_str("command") {
        Some(CHECK) => Ok(check(matches)),
        Some(VERIFY) => verify(alloc, matches),
        Some(AUDIT) => audit(alloc, matches),
        Some(REPLAY) => replay(alloc, matches),
        Some(MAKE) => Ok(make(matches)),
        Some(DEMO) => demo(alloc, matches),
        Some(TABLE) => Ok(table(matches)),
        Some(EXPORT) => Ok(export(matches)),
        Some(RUP) => rup(alloc, matches),
        Some(DRIVE) => drive(alloc, matches),
        _ => Ok(None),
    }
}

// Like the functions below, returns `None` if an option of another command is on the line, or a
// required one is missing.
fn check(matches: &ArgMatches<'_>) -> Option<Command>
    ensures { result ≡ command_if_only_own_options
        (first_value (found_of matches.now)) check_command_spec }
{
    if !has_only(matches, &[COLUMNS]) {
        return None;
    }
    let columns = columns(matches)?;
    let command = ConfCommand::Plain(ConfCommandWithoutExtra::Check);
    Some(Command::Conf { columns, command })
}

fn verify(alloc: Global, matches: &ArgMatches<'_>) -> Result<Option<Command>, AllocError>
    ensures { IfOk result (λ c. c ≡ command_if_only_own_options (first_value (found_of matches.now))
        verify_command_spec) }
{
    if !has_only(matches, &[COLUMNS, DEPTH, CONFLICTS, CERT]) {
        return Ok(None);
    }
    let (Some(columns), Some(depth), Some(conflicts), Some(cert)) = (
        columns(matches),
        depth(matches),
        conflicts(matches),
        matches.get_str(CERT),
    ) else {
        return Ok(None);
    };
    let cert = Text::of(String::from_str(alloc, cert)?);
    let command = ConfCommand::Plain(ConfCommandWithoutExtra::Verify {
        depth,
        conflicts,
        cert,
    });
    Ok(Some(Command::Conf { columns, command }))
}

fn audit(alloc: Global, matches: &ArgMatches<'_>) -> Result<Option<Command>, AllocError>
    ensures { IfOk result (λ c. c ≡ command_if_only_own_options (first_value (found_of matches.now))
        audit_command_spec) }
{
    if !has_only(matches, &[COLUMNS, CERT]) {
        return Ok(None);
    }
    let (Some(columns), Some(cert)) = (columns(matches), matches.get_str(CERT)) else {
        return Ok(None);
    };
    let command = ConfCommand::WithExtra {
        file: Text::of(String::from_str(alloc, cert)?),
        command: ExtraCommand::Audit,
    };
    Ok(Some(Command::Conf { columns, command }))
}

fn replay(alloc: Global, matches: &ArgMatches<'_>) -> Result<Option<Command>, AllocError>
    ensures { IfOk result (λ c. c ≡ command_if_only_own_options (first_value (found_of matches.now))
        replay_command_spec) }
{
    if !has_only(matches, &[COLUMNS, RUN]) {
        return Ok(None);
    }
    let (Some(columns), Some(run)) = (columns(matches), matches.get_str(RUN)) else {
        return Ok(None);
    };
    let command = ConfCommand::WithExtra {
        file: Text::of(String::from_str(alloc, run)?),
        command: ExtraCommand::Replay,
    };
    Ok(Some(Command::Conf { columns, command }))
}

fn make(matches: &ArgMatches<'_>) -> Option<Command>
    ensures { result ≡ command_if_only_own_options
        (first_value (found_of matches.now)) make_command_spec }
{
    if !has_only(matches, &[STATIONS]) {
        return None;
    }
    let stations = stations(matches)?;
    let command = StationsCommand::Make;
    Some(Command::Stations { stations, command })
}

fn demo(alloc: Global, matches: &ArgMatches<'_>) -> Result<Option<Command>, AllocError>
    ensures { IfOk result (λ c. c ≡ command_if_only_own_options (first_value (found_of matches.now))
        demo_command_spec) }
{
    if !has_only(matches, &[STATIONS, DEPTH, CONFLICTS, CERT]) {
        return Ok(None);
    }
    let (Some(stations), Some(depth), Some(conflicts), Some(cert)) = (
        stations(matches),
        depth(matches),
        conflicts(matches),
        matches.get_str(CERT),
    ) else {
        return Ok(None);
    };
    let cert = Text::of(String::from_str(alloc, cert)?);
    let command = StationsCommand::Demo {
        depth,
        conflicts,
        cert,
    };
    Ok(Some(Command::Stations { stations, command }))
}

fn table(matches: &ArgMatches<'_>) -> Option<Command>
    ensures { result ≡ command_if_only_own_options
        (first_value (found_of matches.now)) table_command_spec }
{
    if !has_only(matches, &[COLUMNS]) {
        return None;
    }
    let columns = columns(matches)?;
    let command = ConfCommand::Plain(ConfCommandWithoutExtra::Table);
    Some(Command::Conf { columns, command })
}

fn export(matches: &ArgMatches<'_>) -> Option<Command>
    ensures { result ≡ command_if_only_own_options
        (first_value (found_of matches.now)) export_command_spec }
{
    if !has_only(matches, &[COLUMNS, QUERY, NUMBER]) {
        return None;
    }
    let columns = columns(matches)?;
    let query = query(matches)?;
    let number = number(matches)?;
    if !query.has_number(number) {
        return None;
    }
    let command = ConfCommand::Plain(ConfCommandWithoutExtra::Export { query, number });
    Some(Command::Conf { columns, command })
}

fn rup(alloc: Global, matches: &ArgMatches<'_>) -> Result<Option<Command>, AllocError>
    ensures { IfOk result (λ c. c ≡ command_if_only_own_options (first_value (found_of matches.now))
        rup_command_spec) }
{
    if !has_only(matches, &[COLUMNS, QUERY, NUMBER, CERT]) {
        return Ok(None);
    }
    let (Some(columns), Some(query), Some(number), Some(cert)) = (
        columns(matches),
        query(matches),
        number(matches),
        matches.get_str(CERT),
    ) else {
        return Ok(None);
    };
    if !query.has_number(number) {
        return Ok(None);
    }
    let command = ConfCommand::WithExtra {
        file: Text::of(String::from_str(alloc, cert)?),
        command: ExtraCommand::Rup { query, number },
    };
    Ok(Some(Command::Conf { columns, command }))
}

fn drive(alloc: Global, matches: &ArgMatches<'_>) -> Result<Option<Command>, AllocError>
    ensures { IfOk result (λ c. c ≡ command_if_only_own_options (first_value (found_of matches.now))
        drive_command_spec) }
{
    if !has_only(matches, &[COLUMNS, RUN]) {
        return Ok(None);
    }
    let (Some(columns), Some(run)) = (columns(matches), matches.get_str(RUN)) else {
        return Ok(None);
    };
    let command = ConfCommand::WithExtra {
        file: Text::of(String::from_str(alloc, run)?),
        command: ExtraCommand::Drive,
    };
    Ok(Some(Command::Conf { columns, command }))
}
