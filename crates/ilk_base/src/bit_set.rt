ghost use Rattle.std.specs.Prelude.{ℕ, ◌≡◌, ◌==◌, ◌||◌, ◌&&◌, ◌<◌, false};
ghost use Rattle.std.specs.Int.{bit_at};
ghost use Rattle.ilk_base.specs.BitSet.{bit_set_contains};
ghost use Rattle.ilk_base.specs.Numbers.{has_number};

/// A set of numbers below 256. Number `y` below 128 is in the set if bit `y` of `low` is set, a
/// greater one if bit `y - 128` of `high` is.
#[derive(Clone, Copy)]
pub struct BitSet256 {
    low: u128,
    high: u128,
}

fn is_set(bits: u128, y: u32) -> bool
    ensures { result ≡ (bit_at bits y == 1) }
{
    y < 128 && (bits >> y) & 1 == 1
}

fn with_bit(bits: u128, y: u32) -> u128
    requires { y < 128 }
    ensures { (x : ℕ) → (bit_at result x == 1) ≡ ((bit_at bits x == 1) || (y == x)) }
{
    bits | 1 << y
}

fn either_bits(bits: u128, others: u128) -> u128
    ensures { (x : ℕ) → (bit_at result x == 1) ≡ ((bit_at bits x == 1) || (bit_at others x == 1)) }
{
    bits | others
}

fn both_bits(bits: u128, others: u128) -> u128
    ensures { (x : ℕ) → (bit_at result x == 1) ≡ ((bit_at bits x == 1) && (bit_at others x == 1)) }
{
    bits & others
}

impl BitSet256 {
    /// Creates an empty set.
    pub fn empty() -> BitSet256
        ensures { (x : ℕ) → bit_set_contains result x ≡ false }
    {
        BitSet256 { low: 0, high: 0 }
    }

    /// Creates the set of those `numbers` that are below 256.
    pub fn from_numbers(numbers: &[u32]) -> BitSet256
        ensures { (x : ℕ) → x < 256 → bit_set_contains result x ≡ has_number x numbers.now }
    {
        let mut set = BitSet256::empty();
        for y in numbers {
            set = set.with(*y);
        }
        set
    }

    /// Returns whether number `y` is in the set.
    pub fn contains(self, y: u32) -> bool
        ensures { result ≡ bit_set_contains self y }
    {
        if y < 128 {
            is_set(self.low, y)
        } else {
            is_set(self.high, y - 128)
        }
    }

    /// Returns the set with number `y` added, or the same set if `y` is not below 256.
    pub fn with(self, y: u32) -> BitSet256
        ensures { (x : ℕ) → x < 256 →
            bit_set_contains result x ≡ (bit_set_contains self x || (y == x)) }
    {
        if y < 128 {
            BitSet256 {
                low: with_bit(self.low, y),
                high: self.high,
            }
        } else if y < 256 {
            BitSet256 {
                low: self.low,
                high: with_bit(self.high, y - 128),
            }
        } else {
            self
        }
    }

    /// Returns the numbers that are in this set or in `other`.
    pub fn union(self, other: BitSet256) -> BitSet256
        ensures { (x : ℕ) →
            bit_set_contains result x ≡ (bit_set_contains self x || bit_set_contains other x) }
    {
        BitSet256 {
            low: either_bits(self.low, other.low),
            high: either_bits(self.high, other.high),
        }
    }

    /// Returns the numbers that are both in this set and in `other`.
    pub fn intersection(self, other: BitSet256) -> BitSet256
        ensures { (x : ℕ) →
            bit_set_contains result x ≡ (bit_set_contains self x && bit_set_contains other x) }
    {
        BitSet256 {
            low: both_bits(self.low, other.low),
            high: both_bits(self.high, other.high),
        }
    }
}
