ghost use Rattle.std.specs.Prelude.{◌≡◌};
ghost use Rattle.ilk_base.specs.Numbers.{has_number};

/// Returns whether `numbers` contains `n`.
pub fn has_number(numbers: &[u32], n: u32) -> bool
    ensures { result ≡ has_number n numbers.now }
{
    numbers.iter().any(|m| *m == n)
}
