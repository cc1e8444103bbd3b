ghost use Rattle.std.specs.Prelude.{◌≡◌, ◌≤◌, IfSome};
ghost use Rattle.ilk_words.specs.Options.{number_between, number_of_value};

/// Returns the whole number in `value`, or `None` if it isn't one from `least` to `most`, by the
/// rules of `clap`.
pub(crate) fn number_between(value: &str, least: u64, most: u64) -> Option<u64>
    ensures number { result ≡ number_of_value (number_between least most) value.now }
    ensures bounds { IfSome result (λ number. (least ≤ number) × (number ≤ most)) }
{
    match value.parse::<u64>() {
        Ok(number) if least <= number && number <= most => Some(number),
        _ => None,
    }
}
