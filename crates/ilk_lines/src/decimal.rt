ghost use Rattle.std.specs.Prelude.{◌≡◌, ◌<◌, ◌*◌, ◌+◌, ◌-◌, ◌++◌, OnOk, nat_le, string_bytes};
ghost use Rattle.std.specs.Char.{is_ascii_digit};
ghost use Rattle.std.specs.Fmt.{decimal};
ghost use Rattle.std.specs.List.{list_all};
ghost use Rattle.ilk_base.specs.Option.{then_some};
ghost use Rattle.ilk_lines.specs.Decimal.{decimal_up_to, is_decimal};

use std::alloc::AllocError;

fn all_digits(word: &[u8]) -> bool
    ensures { result ≡ list_all is_ascii_digit word.now }
{
    word.iter().all(|b| b.is_ascii_digit())
}

/// Returns whether `word` is a decimal number: one or more digits, without a leading 0 except in 0
/// itself.
pub fn is_decimal(word: &[u8]) -> bool
    ensures { result ≡ is_decimal word.now }
{
    all_digits(word) && !word.is_empty() && (word.len() == 1 || word[0] != b'0')
}

fn with_digit(number: u64, digit: u64, limit: u64) -> Option<u64>
    ensures { result ≡ then_some (nat_le (number * 10 + digit) limit) (number * 10 + digit) }
{
    let next = number.checked_mul(10)?.checked_add(digit)?;
    if next <= limit { Some(next) } else { None }
}

#[tactic(auto, using(crate::proofs::Numbers::over_limit))]
/// Returns the number that `word` writes in decimal, if it is at most `limit`. Otherwise returns
/// `None`, also if the number is too great for `u64`.
pub fn decimal_up_to(word: &[u8], limit: u64) -> Option<u64>
    ensures { result ≡ decimal_up_to limit word.now }
{
    if !is_decimal(word) {
        return None;
    }
    let mut number = 0;
    for b in word {
        number = with_digit(number, (*b - b'0') as u64, limit)?;
    }
    Some(number)
}

/// Appends `number` in decimal to `text`. If memory runs out, fails and leaves the contents of
/// `text` unspecified.
pub fn push_decimal(text: &mut String, number: u64) -> Result<(), AllocError>
    ensures { OnOk result (string_bytes text.new ≡ string_bytes text.old ++ decimal number) }
{
    write!(text, "{number}")
}
