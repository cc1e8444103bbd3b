ghost use Rattle.std.specs.Prelude.{◌≡◌, IfOk, map, string_bytes};
ghost use Rattle.ilk_words.specs.Files.{cert_of_plain, cert_with_stations, files_named, files_of_command, files_of_conf_command};

use crate::{Command, ConfCommand, ConfCommandWithoutExtra, StationsCommand, parse_arguments};
use ilk_base::Text;
use std::alloc::{AllocError, Global};

/// The files that a command line names besides the configuration.
#[derive(Drop)]
pub struct FileNames {
    /// The file that is read.
    pub extra: Option<Text>,
    /// The file to which the certificate is written.
    pub cert: Option<Text>,
}

/// Returns the names of the files in the arguments `words`, whose first is the program's name. For
/// `audit` and `rup`, `extra` is the value of `--cert`; for `replay` and `drive`, that of `--run`.
/// For `verify` and `demo`, `cert` is the value of `--cert`. Other fields are `None`. Returns
/// `None` if the arguments give no command.
pub fn names_of(alloc: Global, words: &Vec<String>) -> Result<Option<FileNames>, AllocError>
    ensures { IfOk result (λ names. names ≡ files_named (map string_bytes words.now.items)) }
{
    Ok(parse_arguments(alloc, words)?.map(files_of))
}

fn files_of(command: Command) -> FileNames
    ensures { result ≡ files_of_command command }
{
    match command {
        Command::Conf { command, .. } => files_of_conf_command(command),
        Command::Stations { command, .. } => FileNames {
            extra: None,
            cert: cert_with_stations(command),
        },
    }
}

fn files_of_conf_command(command: ConfCommand) -> FileNames
    ensures { result ≡ files_of_conf_command command }
{
    match command {
        ConfCommand::Plain(command) => FileNames {
            extra: None,
            cert: cert_of_plain(command),
        },
        ConfCommand::WithExtra { file, .. } => FileNames {
            extra: Some(file),
            cert: None,
        },
    }
}

fn cert_of_plain(command: ConfCommandWithoutExtra) -> Option<Text>
    ensures { result ≡ cert_of_plain command }
{
    match command {
        ConfCommandWithoutExtra::Verify { cert, .. } => Some(cert),
        ConfCommandWithoutExtra::Check
        | ConfCommandWithoutExtra::Table
        | ConfCommandWithoutExtra::Export { .. } => None,
    }
}

fn cert_with_stations(command: StationsCommand) -> Option<Text>
    ensures { result ≡ cert_with_stations command }
{
    match command {
        StationsCommand::Make => None,
        StationsCommand::Demo { cert, .. } => Some(cert),
    }
}
