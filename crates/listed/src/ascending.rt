//! Lists of numbers: which they hold, which lie within others, and how they are put in order.
ghost use Rattle.std.specs.{Prelude.{◌≡◌, ◌↔◌, ℕ}, List.Sorted.{IsNonDecreasing}};
ghost use Rattle.listed.specs.Lists.{has, is_inside, Ascending, In};

/// A list so short that going over it is quicker than a binary search.
const SHORT: usize = 8;

/// Whether the list holds the number.
pub fn holds(list: &[u32], number: u32) -> bool
    ensures { result ≡ has list.now number }
{
    list.iter().any(|other| number == *other)
}

/// Whether the sorted list holds the number.
pub fn holds_sorted(list: &[u32], number: u32) -> bool
    requires { IsNonDecreasing list.now }
    ensures { result ≡ has list.now number }
{
    if list.len() <= SHORT {
        return holds(list, number);
    }
    list.binary_search(&number).is_ok()
}

/// Whether the ascending list holds the number.
pub fn holds_ascending(list: &[u32], number: u32) -> bool
    requires { Ascending list.now }
    ensures { result ≡ has list.now number }
{
    holds_sorted(list, number)
}

/// Whether each number of the first list is in the second. It stops at the first that is not.
pub fn is_inside(small: &[u32], large: &[u32]) -> bool
    ensures { result ≡ is_inside small.now large.now }
{
    small.iter().all(|number| holds(large, *number))
}

/// Whether each number of the first list is in the second, which ascends. It stops at the first
/// that is not.
pub fn is_inside_ascending(small: &[u32], large: &[u32]) -> bool
    requires { Ascending large.now }
    ensures { result ≡ is_inside small.now large.now }
{
    small.iter().all(|number| holds_ascending(large, *number))
}

/// Puts the numbers in ascending order, each once.
pub fn sort_once(numbers: &mut Vec<u32>)
    ensures ascending { Ascending numbers.new.items }
    ensures same { (n : ℕ) → In n numbers.new.items ↔ In n numbers.old.items }
{
    numbers.sort_unstable();
    numbers.dedup();
}
