//! Iterates over the words of a text.

ghost use Rattle.std.specs.Prelude.{◌≡◌, ◌<◌, [], ◌∷◌, ◌++◌, length, position, IfNone, IfSome};
ghost use Rattle.std.specs.List.{slice_split};
ghost use Rattle.std.specs.Option.{option_map_or};
ghost use Rattle.ilk_rup.specs.RefutationText.{is_blank_byte, words_unless_comment, text_words, words_in};
ghost use Rattle.ilk_rup.specs.WordsLeft.{words_left};

use ilk_lines::split_at_first_occurrence;
use std::marker::Model;

/// An iterator over the words of a text.
#[derive(Drop)]
pub(crate) struct Words<'a> {
    // The rest of the current line.
    line: &'a [u8],
    // The lines after it, if there are any.
    lines: Option<&'a [u8]>,
}

impl<'a> Model for Words<'a> {
    ghost use Rattle.std.specs.Prelude.{List};
    ghost use Rattle.ilk_lines.specs.Lines.{Bytes};
    ghost use Rattle.ilk_rup.specs.WordsLeft.{words_left};

    ghost Value = { List Bytes };

    ghost view = { λ w. words_left w.line.now w.lines };
}

impl<'a> Words<'a> {
    /// Creates an iterator over the words of `text`, except those of comments.
    pub fn from_text(text: &'a [u8]) -> Words<'a>
        ensures { result ≡ text_words text.now }
    {
        Words {
            line: &[],
            lines: Some(text),
        }
    }

    /// Returns the next word, or `None` if and only if no word is left.
    pub fn next(&mut self) -> Option<&'a [u8]>
        ensures word { IfSome result (λ word. self.old ≡ word.now ∷ self.new) }
        ensures none { IfNone result (self.old ≡ []) }
    {
        let (word, line, lines) = next_word(self.line, self.lines)?;
        self.line = line;
        self.lines = lines;
        Some(word)
    }
}

// Returns the next word of a line and the lines after it, with the rest of both. Returns `None` if
// and only if no word is left.
fn next_word<'a>(
    line: &'a [u8],
    lines: Option<&'a [u8]>,
) -> Option<(&'a [u8], &'a [u8], Option<&'a [u8]>)>
    ensures { words_left line.now lines.entry
        ≡ option_map_or (λ next. next.0.now ∷ words_left next.1.now next.2) result [] }
{
    let mut left = line;
    let mut after = lines;
    'lines: loop {
        if let Some((word, rest)) = next_in(left) {
            return Some((word, rest, after));
        }
        let Some(text) = after else {
            return None;
        };
        (left, after) = next_line(text);
    }
}

// Returns the first line of a text, or an empty one in place of a comment, and the text after it,
// if there is a line feed.
fn next_line(text: &[u8]) -> (&[u8], Option<&[u8]>)
    ensures words { text_words text.now
        ≡ words_in result.0.now ++ option_map_or (λ rest. text_words rest.now) result.1 [] }
    ensures shorter { IfSome result.1 (λ rest. length rest.now < length text.now) }
{
    let (line, rest) = split_at_first_occurrence(text, b'\n');
    (without_comment(line), rest)
}

fn without_comment(line: &[u8]) -> &[u8]
    ensures { words_in result.now ≡ words_unless_comment line.now }
{
    match line {
        [b'c', ..] => &[],
        _ => line,
    }
}

fn is_blank_byte(b: u8) -> bool
    ensures { result ≡ is_blank_byte b }
{
    b == b' ' || b == b'\t' || b == b'\r'
}

fn place_of_blank(line: &[u8]) -> Option<usize>
    ensures { result ≡ position is_blank_byte line.now }
{
    line.iter().position(|b| is_blank_byte(*b))
}

#[tactic(auto, using(crate::proofs::Cuts::cut_none, crate::proofs::Cuts::cut_some, std::proofs::lemmas::List::take_rest))]
// Returns the part before the first blank of a line, and the part after it, if there is one.
fn cut_blank(line: &[u8]) -> (&[u8], Option<&[u8]>)
    ensures parts { slice_split is_blank_byte line.now
        ≡ result.0.now ∷ option_map_or (λ rest. slice_split is_blank_byte rest.now) result.1 [] }
    ensures shorter { IfSome result.1 (λ rest. length rest.now < length line.now) }
{
    match place_of_blank(line) {
        Some(i) => (&line[..i], Some(&line[i + 1..])),
        None => (line, None),
    }
}

fn next_in(line: &[u8]) -> Option<(&[u8], &[u8])>
    ensures { words_in line.now ≡ option_map_or (λ cut. cut.0.now ∷ words_in cut.1.now) result [] }
{
    let mut left = line;
    'blanks: loop {
        let (part, rest) = cut_blank(left);
        if !part.is_empty() {
            return Some((part, rest_of(rest)));
        }
        let Some(rest) = rest else {
            return None;
        };
        left = rest;
    }
}

fn rest_of(rest: Option<&[u8]>) -> &[u8]
    ensures { words_in result.now ≡ option_map_or (λ after. words_in after.now) rest.entry [] }
{
    match rest {
        Some(rest) => rest,
        None => &[],
    }
}
