//! The values of options on a line, and the check for options of other commands.
ghost use Rattle.std.specs.Prelude.{◌≡◌, ◌||◌, is_none};
ghost use Rattle.clap.specs.Words.{first_value, found_of};
ghost use Rattle.std.specs.List.{list_all, list_any};
ghost use Rattle.std.specs.Str.{bytes_eq};
ghost use Rattle.ilk_words.specs.Commands.{column_rule_mode_from_args, query_kind_from_args};
ghost use Rattle.ilk_words.specs.Options.{conflicts_option, depth_option, option_number_or_default};
ghost use Rattle.ilk_words.specs.Options.{query_number_option, stations_option};
ghost use Rattle.ilk_words.specs.Words.{has_only_own_options};

use crate::line::{COLUMNS, CONFLICTS, DEPTH, NUMBER, OPTIONS, QUERY, STATIONS};
use crate::number::number_between;
use crate::{
    ColumnRuleMode, DEFAULT_DEPTH, DEFAULT_TOTAL_CONFLICTS, MAX_DEPTH, MAX_QUERY_EVENTS,
    MAX_STATIONS, MAX_TOTAL_CONFLICTS, QueryKind,
};
use clap::ArgMatches;
use ilk_base::HasWord;

/// Returns whether only options in `own` are on the line.
pub(crate) fn has_only(matches: &ArgMatches<'_>, own: &[&str]) -> bool
    ensures { result
        ≡ has_only_own_options (first_value (found_of matches.now))
        (λ name. list_any (λ o. bytes_eq name o.now) own.now) }
{
    each_allowed(matches, OPTIONS.as_slice(), own)
}

fn each_allowed(matches: &ArgMatches<'_>, options: &[&str], own: &[&str]) -> bool
    ensures { result
        ≡ list_all
        (λ name. is_none (first_value (found_of matches.now) name.now)
        || list_any (λ o. bytes_eq name.now o.now) own.now) options.now }
{
    options
        .iter()
        .all(|option| is_allowed(matches, own, option))
}

fn is_allowed(matches: &ArgMatches<'_>, own: &[&str], option: &str) -> bool
    ensures { result
        ≡
        (is_none (first_value (found_of matches.now) option.now)
        || list_any (λ o. bytes_eq option.now o.now) own.now) }
{
    matches.get_str(option).is_none() || is_among(own, option)
}

fn is_among(own: &[&str], option: &str) -> bool
    ensures { result ≡ list_any (λ o. bytes_eq option.now o.now) own.now }
{
    own.iter().any(|name| option == *name)
}

/// Returns the mode of the column rules; strict by default.
pub(crate) fn columns(matches: &ArgMatches<'_>) -> Option<ColumnRuleMode>
    ensures { result ≡ column_rule_mode_from_args (first_value (found_of matches.now)) }
{
    let word = matches
        .get_str(COLUMNS)
        .unwrap_or(ColumnRuleMode::Strict.word());
    ColumnRuleMode::of_word(word.as_bytes())
}

/// Returns the maximum number of events of the runs, or its default.
pub(crate) fn depth(matches: &ArgMatches<'_>) -> Option<u32>
    ensures { result ≡ option_number_or_default (first_value (found_of matches.now)) depth_option }
{
    match matches.get_str(DEPTH) {
        Some(value) => Some(number_between(value, 1, MAX_DEPTH)? as u32),
        None => Some(DEFAULT_DEPTH as u32),
    }
}

/// Returns the conflict budget of the searches, or its default.
pub(crate) fn conflicts(matches: &ArgMatches<'_>) -> Option<u64>
    ensures { result ≡ option_number_or_default
        (first_value (found_of matches.now)) conflicts_option }
{
    match matches.get_str(CONFLICTS) {
        Some(value) => number_between(value, 0, MAX_TOTAL_CONFLICTS),
        None => Some(DEFAULT_TOTAL_CONFLICTS),
    }
}

/// Returns the number of stations, or `None` if it isn't on the line.
pub(crate) fn stations(matches: &ArgMatches<'_>) -> Option<u32>
    ensures { result ≡ option_number_or_default
        (first_value (found_of matches.now)) stations_option }
{
    let stations = number_between(matches.get_str(STATIONS)?, 1, MAX_STATIONS)?;
    Some(stations as u32)
}

/// Returns the kind of the query, or `None` if it isn't on the line.
pub(crate) fn query(matches: &ArgMatches<'_>) -> Option<QueryKind>
    ensures { result ≡ query_kind_from_args (first_value (found_of matches.now)) }
{
    QueryKind::of_word(matches.get_str(QUERY)?.as_bytes())
}

/// Returns the number of events of the query, or `None` if it isn't on the line.
pub(crate) fn number(matches: &ArgMatches<'_>) -> Option<u32>
    ensures { result ≡ option_number_or_default
        (first_value (found_of matches.now)) query_number_option }
{
    let number = number_between(matches.get_str(NUMBER)?, 0, MAX_QUERY_EVENTS)?;
    Some(number as u32)
}
