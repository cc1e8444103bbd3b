ghost use Rattle.std.specs.Prelude.{◌≡◌, ℕ, map};
ghost use Rattle.ilk_base.specs.Numbers.{has_number};
ghost use Rattle.ilk_plant.specs.Once.{numbers_differ};

use ilk_plant::Listed;

/// An item of a route's list, which names a section, board or route by its number.
pub(crate) trait NumberedListItem: Copy {
    ghost number_of: { Self → ℕ };

    /// Returns the number of the named section, board or route.
    fn number(self) -> u32
        ensures { result ≡ number_of self };
}

impl NumberedListItem for u32 {
    ghost number_of = { λ n. n };

    fn number(self) -> u32 {
        self
    }
}

impl NumberedListItem for Listed {
    ghost number_of = { λ listed. listed.point };

    fn number(self) -> u32 {
        self.point
    }
}

/// Returns whether one of the items has number `n`.
pub(crate) fn any_names<T: NumberedListItem>(items: &[T], n: u32) -> bool
    ensures { result ≡ has_number n (map T.number_of items.now) }
{
    items.iter().map(|item| item.number()).any(|m| m == n)
}

/// Returns whether no two items have the same number.
pub(crate) fn none_twice<T: NumberedListItem>(items: &[T]) -> bool
    ensures { result ≡ numbers_differ (map T.number_of items.now) }
{
    for (i, item) in items.iter().enumerate() {
        if any_names(&items[i + 1..], item.number()) {
            return false;
        }
    }
    true
}
