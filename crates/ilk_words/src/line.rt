//! The command line for `clap`. A new option needs a name, an entry in `OPTIONS`, and one `arg` in
//! `line_command`.
ghost use Rattle.std.specs.Prelude.{◌≡◌, IfOk, false};
ghost use Rattle.clap.specs.Words.{app_of, rule_of};
ghost use Rattle.ilk_words.specs.Line.{app, command_name_arg, option_arg_with_parser};
ghost use Rattle.ilk_words.specs.Options.{columns_option, query_option};
ghost use Rattle.ilk_words.specs.Places.{app_without_addresses, clap_arg_without_addresses, parser_without_addresses};

use crate::command::{COLUMNS_WORDS, QUERY_WORDS};
use crate::{MAX_DEPTH, MAX_QUERY_EVENTS, MAX_STATIONS, MAX_TOTAL_CONFLICTS};
use clap::builder::ValueParser;
use clap::{Arg, ArgAction};
use std::alloc::{AllocError, Global};

pub(crate) const CHECK: &str = "check";

pub(crate) const VERIFY: &str = "verify";

pub(crate) const AUDIT: &str = "audit";

pub(crate) const REPLAY: &str = "replay";

pub(crate) const MAKE: &str = "make";

pub(crate) const DEMO: &str = "demo";

pub(crate) const TABLE: &str = "table";

pub(crate) const EXPORT: &str = "export";

pub(crate) const RUP: &str = "rup";

pub(crate) const DRIVE: &str = "drive";

static COMMANDS: [&str; 10] = [
    CHECK, VERIFY, AUDIT, REPLAY, MAKE, DEMO, TABLE, EXPORT, RUP, DRIVE,
];

pub(crate) const COLUMNS: &str = "columns";

pub(crate) const DEPTH: &str = "depth";

pub(crate) const CONFLICTS: &str = "conflicts";

pub(crate) const CERT: &str = "cert";

pub(crate) const RUN: &str = "run";

pub(crate) const STATIONS: &str = "stations";

pub(crate) const QUERY: &str = "query";

pub(crate) const NUMBER: &str = "number";

pub(crate) static OPTIONS: [&str; 8] = [
    COLUMNS, DEPTH, CONFLICTS, CERT, RUN, STATIONS, QUERY, NUMBER,
];

pub(crate) fn line_command<'a>(alloc: Global) -> Result<clap::Command<'a>, AllocError>
    ensures { IfOk result (λ c. app_without_addresses (app_of c) ≡ app) }
{
    clap::Command::new(alloc, "irv")
        .arg(command_argument(alloc))?
        .arg(option_argument(alloc, COLUMNS, columns_values()))?
        .arg(option_argument(alloc, DEPTH, ValueParser::unsigned(1, MAX_DEPTH)))?
        .arg(option_argument(
            alloc,
            CONFLICTS,
            ValueParser::unsigned(0, MAX_TOTAL_CONFLICTS),
        ))?
        .arg(option_argument(alloc, CERT, ValueParser::string()))?
        .arg(option_argument(alloc, RUN, ValueParser::string()))?
        .arg(option_argument(alloc, STATIONS, ValueParser::unsigned(1, MAX_STATIONS)))?
        .arg(option_argument(alloc, QUERY, query_values()))?
        .arg(option_argument(alloc, NUMBER, ValueParser::unsigned(0, MAX_QUERY_EVENTS)))
}

fn command_argument<'a>(alloc: Global) -> Arg<'a>
    ensures rule { clap_arg_without_addresses (rule_of result) ≡ command_name_arg }
    ensures local { result.global ≡ false }
{
    Arg::new(alloc, "command")
        .required(true)
        .action(ArgAction::Set)
        .value_parser(COMMANDS.as_slice())
}

fn option_argument<'a>(alloc: Global, name: &'a str, values: ValueParser<'a>) -> Arg<'a>
    ensures rule { clap_arg_without_addresses (rule_of result)
        ≡ option_arg_with_parser name.entry.now (parser_without_addresses values.entry) }
    ensures local { result.global ≡ false }
{
    Arg::new(alloc, name)
        .long(name)
        .action(ArgAction::Set)
        .value_parser(values)
}

fn columns_values<'a>() -> ValueParser<'a>
    ensures { parser_without_addresses result ≡ columns_option.values }
{
    ValueParser::Names(COLUMNS_WORDS.as_slice())
}

fn query_values<'a>() -> ValueParser<'a>
    ensures { parser_without_addresses result ≡ query_option.values }
{
    ValueParser::Names(QUERY_WORDS.as_slice())
}
