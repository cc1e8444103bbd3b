ghost use Rattle.std.specs.Prelude.{◌≡◌, ◌+◌, ◌-◌, ◌/◌, ◌≤◌, ◌++◌, length, map, vec_len, vec_capacity, IsTrue};
ghost use Rattle.ilk_cnf.specs.Formula.{is_clause_over};
ghost use Rattle.ilk_arena.specs.Arena.{place};
ghost use Rattle.ilk_arena.specs.declared.place.TheConstants.{WORD_VALUE_LIMIT};

use crate::place::place;
use ilk_cnf::Lit;

fn append_places(words: &mut Vec<u32>, clause: &[Lit])
    requires room { vec_len words.old + length clause.now ≤ vec_capacity words.old }
    requires within { IsTrue (is_clause_over (WORD_VALUE_LIMIT / 2 - 1) clause.now) }
    ensures items { words.new.items ≡ words.old.items ++ map place clause.now }
    ensures capacity { vec_capacity words.old ≤ vec_capacity words.new }
{
    for l in clause {
        words.push(place(*l)).unwrap();
    }
}

/// Appends `header` and the places of the literals of `clause` to `words`, which has room for them.
pub(crate) fn push_clause_words(words: &mut Vec<u32>, header: [u32; 7], clause: &[Lit])
    requires room { vec_len words.old + length clause.now + 7 ≤ vec_capacity words.old }
    requires within { IsTrue (is_clause_over (WORD_VALUE_LIMIT / 2 - 1) clause.now) }
    ensures items { words.new.items ≡ words.old.items ++ (header ++ map place clause.now) }
    ensures capacity { vec_capacity words.old ≤ vec_capacity words.new }
{
    words.extend_from_slice(&header).unwrap();
    append_places(words, clause);
}
