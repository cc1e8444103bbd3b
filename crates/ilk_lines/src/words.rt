ghost use Rattle.std.specs.Prelude.{◌≡◌, ◌<◌, [], ◌∷◌, length, IfSome, option_map};
ghost use Rattle.std.specs.Option.{option_map_or};
ghost use Rattle.ilk_lines.specs.Words.{strip_start, strip_word_and_space, split_at_first_space, words_of};

use crate::parts::{place_of, split_at_first_occurrence};

#[tactic(auto, using(std::proofs::lemmas::List::take_rest))]
/// Returns the parts of a line before and after its first space. Returns `None` if and only if
/// there is no space.
pub fn split_at_first_space(line: &[u8]) -> Option<(&[u8], &[u8])>
    ensures { option_map (λ words. (words.0.now, words.1.now)) result
        ≡ split_at_first_space line.now }
{
    let i = place_of(line, b' ')?;
    Some((&line[..i], &line[i + 1..]))
}

/// Returns the part of `line` after `beginning`. Returns `None` if and only if the line doesn't
/// begin with it.
pub fn strip_start<'a>(line: &'a [u8], beginning: &[u8]) -> Option<&'a [u8]>
    ensures { option_map (λ rest. rest.now) result ≡ strip_start beginning.now line.now }
{
    line.strip_prefix(beginning)
}

/// Returns the part of `line` after its first word `word` and the space that ends it. Returns
/// `None` if and only if the line doesn't begin so.
pub fn strip_word_and_space<'a>(line: &'a [u8], word: &[u8]) -> Option<&'a [u8]>
    ensures { option_map (λ rest. rest.now) result ≡ strip_word_and_space word.now line.now }
{
    let rest = strip_start(line, word)?;
    strip_start(rest, b" ")
}

/// Returns the first word of a line, and the part after the space that ends it. That part is `None`
/// if and only if there is no space.
pub fn split_off_first_word(line: &[u8]) -> (&[u8], Option<&[u8]>)
    ensures words { words_of line.now
        ≡ result.0.now ∷ option_map_or (λ rest. words_of rest.now) result.1 [] }
    ensures shorter { IfSome result.1 (λ rest. length rest.now < length line.now) }
{
    split_at_first_occurrence(line, b' ')
}
