ghost use Rattle.std.specs.Prelude.{ℕ, ◌≡◌, ◌≤◌, ◌++◌, ◌<◌, ◌↔◌, List, All, Some, length};
ghost use Rattle.std.specs.Fmt.{decimal};
ghost use Rattle.ilk_lines.specs.Decimal.{decimal_up_to};
ghost use Rattle.ilk_lines.specs.Lines.{Bytes, unterminated_tail, lines_of};
ghost use Rattle.ilk_lines.specs.Words.{strip_word_and_space, split_at_first_space, words_of};
ghost use Rattle.ilk_lines.specs.Written.{LacksByte, join_words_with_spaces, join_word_and_rest, text_of};

/// Splitting a text into lines and joining them are inverse. A text is its lines, each with its
/// line feed, and the bytes after them. Lines and a rest without line feeds are read back as
/// written. Proof only; no run-time effect.
pub fn line_split_and_join_inverse(text: &[u8])
    ensures whole { text.now ≡ text_of (lines_of text.now) ++ unterminated_tail text.now }
    ensures lines { (lines : List Bytes) (after : Bytes) →
        All (LacksByte 10) lines → LacksByte 10 after → lines_of (text_of lines ++ after) ≡ lines }
    ensures after { (lines : List Bytes) (after : Bytes) →
        All (LacksByte 10) lines → LacksByte 10 after →
        unterminated_tail (text_of lines ++ after) ≡ after }
{}

/// Splitting a line into words and joining them are inverse. A line is its words with one space
/// between each two. One or more words without spaces are read back as written. The first word is
/// the part before the first space, and the rest of the line follows it. Proof only; no run-time
/// effect.
pub fn word_split_and_join_inverse(line: &[u8])
    ensures whole { line.now ≡ join_words_with_spaces (words_of line.now) }
    ensures words { (words : List Bytes) → 0 < length words → All (LacksByte 32) words →
        words_of (join_words_with_spaces words) ≡ words }
    ensures first { (word rest : Bytes) →
        (split_at_first_space line.now ≡ Some (word, rest)) ↔
        ((line.now ≡ join_word_and_rest word rest) × LacksByte 32 word) }
    ensures after { (word rest : Bytes) →
        (strip_word_and_space word line.now ≡ Some rest)
        ↔ (line.now ≡ join_word_and_rest word rest) }
{}

/// A word is read as a number up to `limit` if and only if it is the decimal text of that number.
/// So each number has one spelling, and the output of `push_decimal` is read back. Proof only; no
/// run-time effect.
pub fn decimals_are_those_written(word: &[u8], limit: u64)
    ensures { (n : ℕ) →
        (decimal_up_to limit word.now ≡ Some n) ↔ ((word.now ≡ decimal n) × (n ≤ limit)) }
{}
