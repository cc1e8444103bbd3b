ghost use Rattle.std.specs.Prelude.{◌≡◌, [], ◌∷◌, Some, None, codes};
ghost use Rattle.ilk_lines.specs.Decimal.{decimal_up_to};
ghost use Rattle.ilk_lines.specs.Lines.{unterminated_tail, lines_of};
ghost use Rattle.ilk_lines.specs.Words.{strip_word_and_space, split_at_first_space, words_of};

fn lines_of_texts()
    ensures two { lines_of (codes "a\n\n") ≡ codes "a" ∷ [] ∷ [] }
    ensures unfed { lines_of (codes "a\nb") ≡ codes "a" ∷ [] }
    ensures after { unterminated_tail (codes "a\nb") ≡ codes "b" }
    ensures none { lines_of [] ≡ [] }
{}

fn words_of_lines()
    ensures two { words_of (codes "a b") ≡ codes "a" ∷ codes "b" ∷ [] }
    ensures spaces { words_of (codes "a  b") ≡ codes "a" ∷ [] ∷ codes "b" ∷ [] }
    ensures empty { words_of [] ≡ [] ∷ [] }
    ensures first { split_at_first_space (codes "a b c") ≡ Some (codes "a", codes "b c") }
    ensures alone { split_at_first_space (codes "a") ≡ None }
    ensures after { strip_word_and_space (codes "a") (codes "a b") ≡ Some (codes "b") }
    ensures longer { strip_word_and_space (codes "a") (codes "ab c") ≡ None }
{}

fn numbers_of_words()
    ensures none { decimal_up_to 10 (codes "0") ≡ Some 0 }
    ensures most { decimal_up_to 10 (codes "10") ≡ Some 10 }
    ensures more { decimal_up_to 10 (codes "11") ≡ None }
    ensures led { decimal_up_to 10 (codes "01") ≡ None }
    ensures signed { decimal_up_to 10 (codes "+1") ≡ None }
    ensures empty { decimal_up_to 10 [] ≡ None }
    ensures pick_greatest_positive { decimal_up_to 18446744073709551615
        (codes "18446744073709551615")
        ≡ Some 18446744073709551615 }
    ensures beyond { decimal_up_to 18446744073709551615 (codes "18446744073709551616") ≡ None }
{}
