ghost use Rattle.std.specs.Prelude.{◌≡◌, ◌<◌, length, is_some, unwrap_or, IsTrue};
ghost use Rattle.ilk_ir.specs.System.{plain_system, system_valid, in_ranges, after_rule_number, after_settings};

use crate::form::{Form, Values, holds};
use ilk_base::Row;

/// A variable, and the value that a rule gives it.
#[derive(Clone, Copy)]
pub struct Setting {
    pub var: u32,
    pub value: u8,
}

/// A list of settings.
pub type Sets = Row<Setting>;

/// A guard, and the settings to write if it holds.
#[derive(Drop)]
pub struct Rule {
    pub guard: Form,
    pub sets: Sets,
}

/// A list of rules.
pub type Rules = Row<Rule>;

/// For each variable, the number of its values, which begin at 0.
pub type Ranges = Row<u8>;

/// Variables with their ranges, and the rules that change their values.
#[derive(Drop)]
pub struct System {
    pub ranges: Ranges,
    pub rules: Rules,
}

fn write_all(values: &mut Values, sets: &Sets)
    ensures { values.new ≡ after_settings values.old sets.now }
{
    for s in sets.as_slice() {
        if u64::from(s.var) < values.len() {
            *values.at_mut(u64::from(s.var)) = s.value;
        }
    }
}

/// Fires rule number `rule`, from 0: if its guard holds, writes its settings to `values` and
/// returns `true`. Otherwise leaves `values` unchanged and returns `false`.
pub fn fire(system: &System, values: &mut Values, rule: u32) -> bool
    requires { rule < length system.now.rules }
    ensures fires { result ≡ is_some (after_rule_number (plain_system system.now) rule values.old) }
    ensures values { values.new
        ≡ unwrap_or (after_rule_number (plain_system system.now) rule values.old) values.old }

    // In a valid system, values in range stay in range.
    ensures in_ranges { IsTrue (system_valid (plain_system system.now)) →
        IsTrue (in_ranges values.old system.now.ranges) →
        IsTrue (in_ranges values.new system.now.ranges) }
{
    let rule = system.rules.at(u64::from(rule));
    if !holds(&rule.guard, values) {
        return false;
    }
    write_all(values, &rule.sets);
    true
}
