ghost use Rattle.std.specs.Prelude.{◌≡◌, ◌+◌, ◌-◌, ◌<◌, ◌≤◌, length, slice_index, slice_set, IfSome};
ghost use Rattle.ilk_arena.specs.Words.{link_index, next_reference_in_chain, watch_moved, other_watch_place, words_after_unlink, heads_after_unlink};
ghost use Rattle.ilk_arena.specs.declared.place.TheConstants.{WORD_VALUE_LIMIT};

/// Returns the index in `words` of the link for place `at` in the header of `clause`.
#[inline(always)]
#[tactic(auto, unfolding(crate::specs::Words::link_index))]
pub(crate) fn find_link_index_for_watch(words: &[u32], at: u32, clause: u64) -> u64
    requires { clause + 7 ≤ length words.now }
    ensures slot { result ≡ link_index words.now at clause }
    ensures low { clause + 2 ≤ result }
    ensures high { result ≤ clause + 4 }
{
    if words[clause as usize + 1] == at {
        clause + 2
    } else {
        clause + 4
    }
}

/// Returns the reference of the clause after `clause` in the chain of place `at`, or 0 if there is
/// none.
#[inline(always)]
pub(crate) fn next_of(words: &[u32], at: u32, clause: u64) -> u32
    requires { clause + 7 ≤ length words.now }
    ensures { result ≡ next_reference_in_chain words.now at clause }
{
    words[find_link_index_for_watch(words, at, clause) as usize]
}

/// Returns the place, other than `at`, of the second literal that `clause` watches.
#[inline(always)]
pub(crate) fn other_watched_place(words: &[u32], at: u32, clause: u64) -> u32
    requires { clause + 7 ≤ length words.now }
    ensures { result ≡ other_watch_place words.now at clause }
{
    let left = words[clause as usize + 1];
    if left == at {
        words[clause as usize + 3]
    } else {
        left
    }
}

fn skip(words: &mut [u32], from: u32, before: u64, clause: u64)
    requires before_in { before + 7 ≤ length words.old }
    requires clause_in { clause + 7 ≤ length words.old }
    ensures { words.new
        ≡ slice_set words.old (link_index words.old from before)
        (next_reference_in_chain words.old from clause) }
{
    let after = next_of(words, from, clause);
    let at = find_link_index_for_watch(words, from, before);
    words[at as usize] = after;
}

// Replaces the watch of `from` in `clause` by one of `to` with link `link`.
fn relabel(words: &mut [u32], from: u32, clause: u64, to: u32, link: u32)
    requires { clause + 7 ≤ length words.old }
    ensures { words.new ≡ watch_moved words.old from clause to link }
{
    let at = find_link_index_for_watch(words, from, clause);
    words[at as usize - 1] = to;
    words[at as usize] = link;
}

fn unlink(words: &mut [u32], heads: &mut [u32], before: Option<u64>, from: u32, clause: u64)
    requires before_in { IfSome before (λ b. b + 7 ≤ length words.old) }
    requires clause_in { clause + 7 ≤ length words.old }
    requires from_in { from < length heads.old }
    ensures words { words.new ≡ words_after_unlink words.old before from clause }
    ensures heads { heads.new ≡ heads_after_unlink heads.old words.old before from clause }
{
    match before {
        None => heads[from as usize] = next_of(words, from, clause),
        Some(b) => skip(words, from, b, clause),
    }
}

fn link_first(words: &mut [u32], heads: &mut [u32], from: u32, clause: u64, to: u32)
    requires clause_in { clause + 7 ≤ length words.old }
    requires to_in { to < length heads.old }
    requires fits { clause < WORD_VALUE_LIMIT }
    ensures words { words.new ≡ watch_moved words.old from clause to (slice_index heads.old to) }
    ensures heads { heads.new ≡ slice_set heads.old to clause }
{
    let first = heads[to as usize];
    relabel(words, from, clause, to, first);
    heads[to as usize] = clause as u32;
}

/// Moves `clause` from the chain of place `from` to the front of the chain of place `to`. In the
/// old chain it directly follows `before`, or is first if `before` is `None`.
pub(crate) fn move_watch(
    words: &mut [u32],
    heads: &mut [u32],
    before: Option<u64>,
    clause: u64,
    from: u32,
    to: u32,
)
    requires before_in { IfSome before (λ b. b + 7 ≤ length words.old) }
    requires clause_in { clause + 7 ≤ length words.old }
    requires from_in { from < length heads.old }
    requires to_in { to < length heads.old }
    requires fits { clause < WORD_VALUE_LIMIT }
    ensures words { words.new
        ≡ watch_moved (words_after_unlink words.old before from clause) from clause to
        (slice_index (heads_after_unlink heads.old words.old before from clause) to) }
    ensures heads { heads.new
        ≡ slice_set (heads_after_unlink heads.old words.old before from clause) to clause }
{
    unlink(words, heads, before, from, clause);
    link_first(words, heads, from, clause, to);
}

/// Makes `clause` the first in the chains of the places `left` and `right`.
pub(crate) fn set_both_heads(heads: &mut [u32], left: u32, right: u32, clause: u64)
    requires left_in { left < length heads.old }
    requires right_in { right < length heads.old }
    requires fits { clause < WORD_VALUE_LIMIT }
    ensures { heads.new ≡ slice_set (slice_set heads.old left clause) right clause }
{
    let link = clause as u32;
    heads[left as usize] = link;
    heads[right as usize] = link;
}
