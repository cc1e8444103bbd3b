ghost use Rattle.std.specs.Prelude.{◌≡◌, ◌<◌, ◌==◌, ◌+◌, [], ◌∷◌, length, IfSome, position};
ghost use Rattle.std.specs.Option.{option_map_or};
ghost use Rattle.ilk_lines.specs.Lines.{unterminated_tail, lines_of, parts_at};

/// Returns the index of the first byte `at`. Returns `None` if there is none.
pub(crate) fn place_of(text: &[u8], at: u8) -> Option<usize>
    ensures { result ≡ position (λ b. b == at) text.now }
{
    text.iter().position(|b| *b == at)
}

/// Returns the bytes of `text` before its first byte `at`, and those after it. The second part is
/// `None` if `text` has no byte `at`; the first is then all of `text`.
pub fn split_at_first_occurrence(text: &[u8], at: u8) -> (&[u8], Option<&[u8]>)
    ensures parts { parts_at at text.now
        ≡ result.0.now ∷ option_map_or (λ rest. parts_at at rest.now) result.1 [] }
    ensures shorter { IfSome result.1 (λ rest. length rest.now < length text.now) }
{
    match place_of(text, at) {
        Some(i) => (&text[..i], Some(&text[i + 1..])),
        None => (text, None),
    }
}

#[tactic(auto, using(crate::proofs::Cuts::lines_cut, crate::proofs::Cuts::lines_none))]
/// Returns the first line of a text and the rest after it. Returns `None` if the text has no line
/// feed.
pub(crate) fn first_line(text: &[u8]) -> Option<(&[u8], &[u8])>
    ensures lines { lines_of text.now
        ≡ option_map_or (λ cut. cut.0.now ∷ lines_of cut.1.now) result [] }
    ensures after { IfSome result
        (λ cut. unterminated_tail text.now ≡ unterminated_tail cut.1.now) }
    ensures shorter { IfSome result (λ cut. length cut.1.now < length text.now) }
{
    let (line, rest) = split_at_first_occurrence(text, b'\n');
    match rest {
        Some(rest) => Some((line, rest)),
        None => None,
    }
}
