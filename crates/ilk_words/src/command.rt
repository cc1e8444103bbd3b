ghost use Rattle.std.specs.Prelude.{◌≡◌};
ghost use Rattle.ilk_words.specs.Columns.{column_rule_mode_of_word};
ghost use Rattle.ilk_words.specs.Queries.{query_exists, query_kind_of_word};

use ilk_base::{HasWord, Text, first_value_with_word};

/// Whether the column rules (C) of the interlocking table are checked.
#[derive(Clone, Copy, PartialEq, Eq, Debug)]
pub enum ColumnRuleMode {
    Strict,
    Free,
}

const STRICT: &str = "strict";

const FREE: &str = "free";

pub(crate) static COLUMNS_WORDS: [&str; 2] = [STRICT, FREE];

impl HasWord for ColumnRuleMode {
    ghost use Rattle.ilk_words.specs.Columns.{column_rule_mode_word};

    ghost word_of = { column_rule_mode_word };

    fn word(self) -> &'static str {
        match self {
            ColumnRuleMode::Strict => STRICT,
            ColumnRuleMode::Free => FREE,
        }
    }
}

impl ColumnRuleMode {
    pub(crate) fn of_word(word: &[u8]) -> Option<ColumnRuleMode>
        ensures { result ≡ column_rule_mode_of_word word.now }
    {
        first_value_with_word(&[ColumnRuleMode::Strict, ColumnRuleMode::Free], word)
    }
}

/// The kind of run that a query asks for.
#[derive(Clone, Copy, PartialEq, Eq, Debug)]
pub enum QueryKind {
    /// From the initial state to a hazard.
    Hazard,
    /// From the initial state to a state that violates a family of the invariant.
    Breach,
    /// From any state, through states that satisfy all families, to a hazard or to a state that
    /// violates a family.
    Step,
}

const HAZARD: &str = "hazard";

const BREACH: &str = "breach";

const STEP: &str = "step";

pub(crate) static QUERY_WORDS: [&str; 3] = [HAZARD, BREACH, STEP];

impl HasWord for QueryKind {
    ghost use Rattle.ilk_words.specs.Queries.{query_word};

    ghost word_of = { query_word };

    fn word(self) -> &'static str {
        match self {
            QueryKind::Hazard => HAZARD,
            QueryKind::Breach => BREACH,
            QueryKind::Step => STEP,
        }
    }
}

impl QueryKind {
    pub(crate) fn of_word(word: &[u8]) -> Option<QueryKind>
        ensures { result ≡ query_kind_of_word word.now }
    {
        first_value_with_word(
            &[QueryKind::Hazard, QueryKind::Breach, QueryKind::Step],
            word,
        )
    }

    pub(crate) fn has_number(self, number: u32) -> bool
        ensures { result ≡ query_exists self number }
    {
        match self {
            QueryKind::Hazard | QueryKind::Breach => true,
            QueryKind::Step => 1 <= number,
        }
    }
}

/// A command with its options.
#[derive(Drop)]
pub enum Command {
    /// Reads a configuration. `columns` says whether its column rules are checked.
    Conf {
        columns: ColumnRuleMode,
        command: ConfCommand,
    },
    /// Reads nothing. The plant is a generated line of `stations` stations.
    Stations {
        stations: u32,
        command: StationsCommand,
    },
}

/// A command on a configuration.
#[derive(Drop)]
pub enum ConfCommand {
    /// Reads only the configuration.
    Plain(ConfCommandWithoutExtra),
    /// Also reads the file `file`, the extra input.
    WithExtra { file: Text, command: ExtraCommand },
}

/// A command that reads only a configuration.
#[derive(Drop)]
pub enum ConfCommandWithoutExtra {
    /// Print every rule that the configuration violates.
    Check,
    /// Decide whether the plant is safe, by runs of up to `depth` events; its searches learn at
    /// most `conflicts` clauses in total. The certificate goes to the file `cert`.
    Verify {
        depth: u32,
        conflicts: u64,
        cert: Text,
    },
    /// Print the configuration's network with a generated table of its routes.
    Table,
    /// Print the formula of the query of kind `query` for runs of `number` events.
    Export {
        query: QueryKind,
        number: u32,
    },
}

/// A command that reads a configuration and an extra input.
#[derive(Clone, Copy, PartialEq, Eq, Debug)]
pub enum ExtraCommand {
    /// Check the certificate.
    Audit,
    /// Replay the run.
    Replay,
    /// Check another solver's refutation of the formula that `Export` prints.
    Rup { query: QueryKind, number: u32 },
    /// Simulate the scenario.
    Drive,
}

/// A command on a generated line.
#[derive(Drop)]
pub enum StationsCommand {
    /// Print the configuration of the line.
    Make,
    /// Decide whether the plant of the line is safe, as `Verify` does.
    Demo {
        depth: u32,
        conflicts: u64,
        cert: Text,
    },
}
