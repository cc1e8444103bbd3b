ghost use Rattle.std.specs.Prelude.{◌≡◌, List, ℕ};
ghost use Rattle.ilk_base.specs.Words.{first_value_with_word as value_by_word};

/// A type whose values are written as words in texts. Writing uses `word`, and reading uses
/// `first_value_with_word`.
pub trait HasWord: Copy {
    ghost word_of: { Self → List ℕ };

    /// Returns the word that stands for the value.
    fn word(self) -> &'static str
        ensures { result.now ≡ word_of self };
}

/// Returns the first of `values` whose word is `word`, or `None` if there is none.
pub fn first_value_with_word<T: HasWord>(values: &[T], word: &[u8]) -> Option<T>
    ensures { result ≡ value_by_word T.word_of values.now word.now }
{
    values
        .iter()
        .copied()
        .find(|value| word == value.word().as_bytes())
}
