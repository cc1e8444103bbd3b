//! Reads an item of a text: its kind, and the literals of the clause that it adds.

ghost use Rattle.std.specs.Prelude.{◌≡◌, ◌≤◌, ◌^◌, ◌∷◌, [], ◌||◌, IsTrue, bytes_eq, codes};
ghost use Rattle.ilk_cnf.specs.Formula.{is_lit_over};
ghost use Rattle.ilk_rup.specs.RefutationText.{is_item_end_word, literal_of, var_from_decimal_word};
ghost use Rattle.ilk_rup.specs.Items.{IsItemRead, IsAddedUnlessVarPresent, AreItemLiteralsRead, item_kind_of_deletion, item_kind_of_addition};

use crate::set::LitSet;
use crate::words::Words;
use ilk_cnf::Lit;
use ilk_lines::decimal_up_to;

/// The kind of the item that `read_item` has read.
#[derive(Clone, Copy)]
pub(crate) enum ItemKind {
    /// No item: the text has ended.
    End,
    /// Not an item: a word is wrong, or the last `0` is missing.
    Malformed,
    /// A well-formed item that adds nothing: a deletion, or a clause that is always true.
    Idle,
    /// An item that adds a clause.
    Adds,
}

fn var_from_decimal_word(word: &[u8], vars: u64) -> Option<u64>
    ensures { result ≡ var_from_decimal_word vars word.now }
{
    let v = decimal_up_to(word, vars)?;
    if v > 0 { Some(v) } else { None }
}

fn literal_of(word: &[u8], vars: u64) -> Option<Lit>
    requires { vars ≤ 2 ^ 62 }
    ensures { result ≡ literal_of vars word.now }
{
    match word {
        [b'-', var @ ..] => Some(Lit::new(var_from_decimal_word(var, vars)?, false)),
        _ => Some(Lit::new(var_from_decimal_word(word, vars)?, true)),
    }
}

// Adds `l` to `set`, unless the set has its opposite. Returns whether it has.
fn put(set: &mut LitSet, l: Lit) -> bool
    requires { IsTrue (is_lit_over set.old.vars l) }
    ensures put { IsAddedUnlessVarPresent l set.old.lits set.new.lits result }
    ensures vars { set.new.vars ≡ set.old.vars }
{
    if set.has(l) {
        return false;
    }
    if set.has_var(l) {
        return true;
    }
    set.put(l);
    false
}

fn is_item_end_word(word: &[u8]) -> bool
    ensures { result ≡ is_item_end_word word.now }
{
    word == b"0".as_slice()
}

// Returns whether the word is `d`, which begins an item that adds nothing.
fn is_keep(word: &[u8]) -> bool
    ensures { result ≡ bytes_eq word.now (codes "d") }
{
    word == b"d".as_slice()
}

fn either(a: bool, b: bool) -> bool
    ensures { result ≡ (a || b) }
{
    a || b
}

// Reads literals, from the word `first` up to the word `0`, into an empty set. Returns whether some
// variable has both its literals, or `None` if a word isn't a literal, or `0` is missing.
fn read_literals(first: &[u8], words: &mut Words, set: &mut LitSet, vars: u64) -> Option<bool>
    requires numbered { vars ≤ 2 ^ 62 }
    requires vars { set.old.vars ≡ vars }
    requires empty { set.old.lits ≡ [] }
    ensures read { AreItemLiteralsRead vars
        (first.now ∷ words.old) set.new.lits words.new result }
    ensures vars { set.new.vars ≡ set.old.vars }
{
    let mut word = first;
    let mut both = false;
    'words: loop {
        if is_item_end_word(word) {
            return Some(both);
        }
        match literal_of(word, vars) {
            None => return None,
            Some(l) => both = either(put(set, l), both),
        }
        match words.next() {
            None => return None,
            Some(next) => word = next,
        }
    }
}

fn plain_item(read: Option<bool>) -> ItemKind
    ensures { result ≡ item_kind_of_addition read }
{
    match read {
        None => ItemKind::Malformed,
        Some(true) => ItemKind::Idle,
        Some(false) => ItemKind::Adds,
    }
}

fn kept_item(read: Option<bool>) -> ItemKind
    ensures { result ≡ item_kind_of_deletion read }
{
    match read {
        None => ItemKind::Malformed,
        Some(_) => ItemKind::Idle,
    }
}

/// Reads the next item from `words`, over the variables 1 to `vars`, and returns its kind. If it
/// adds a clause, its literals are then in `set`, which has to be empty before.
pub(crate) fn read_item(words: &mut Words, set: &mut LitSet, vars: u64) -> ItemKind
    requires numbered { vars ≤ 2 ^ 62 }
    requires vars { set.old.vars ≡ vars }
    requires empty { set.old.lits ≡ [] }
    ensures read { IsItemRead vars words.old set.new.lits words.new result }
    ensures vars { set.new.vars ≡ set.old.vars }
{
    match words.next() {
        None => ItemKind::End,
        Some(word) => read_after(word, words, set, vars),
    }
}

fn read_after(word: &[u8], words: &mut Words, set: &mut LitSet, vars: u64) -> ItemKind
    requires numbered { vars ≤ 2 ^ 62 }
    requires vars { set.old.vars ≡ vars }
    requires empty { set.old.lits ≡ [] }
    ensures read { IsItemRead vars (word.now ∷ words.old) set.new.lits words.new result }
    ensures vars { set.new.vars ≡ set.old.vars }
{
    if !is_keep(word) {
        return plain_item(read_literals(word, words, set, vars));
    }
    match words.next() {
        None => ItemKind::Malformed,
        Some(first) => kept_item(read_literals(first, words, set, vars)),
    }
}
