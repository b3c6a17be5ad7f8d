//! Orders, equalities and tests, which collections take as parameters.
ghost use Rattle.std.specs.Prelude.{◌≡◌, ℤ, Bool, true};
ghost use Rattle.std.specs.Cmp.{IsTotalOrder, IsEquivalence};
ghost use Rattle.std.specs.declared.cmp.Ordering.{Ordering};

use std::cmp::Ordering;

/// An order of elements: a total preorder, so different elements may compare equal.
pub trait Order<T>: Copy + Eq {
    /// What `compare` answers.
    ghost order: { Self → T → T → Ordering };

    fn compare(&self, a: &T, b: &T) -> Ordering
        ensures { result ≡ order self.now a.now b.now };

    ghost total: { (o : Self) → IsTotalOrder (order o) };
}

/// The elements' own order.
#[derive(Clone, Copy, Debug, PartialEq, Eq)]
pub struct Ordinal;

impl<T: Ord> Order<T> for Ordinal {
    ghost order = { λ _. T.cmp };

    fn compare(&self, a: &T, b: &T) -> Ordering {
        a.cmp(b)
    }

    ghost total = { λ _. T.total };
}

/// An equality of elements, with a hash that same elements share.
///
/// An equivalence calls each element same to itself. What is equal as a `Key` is one value, so
/// equal elements are same (`laws::equal_is_same`).
pub trait HashEq<T>: Copy + Eq {
    /// What `same` answers.
    ghost same: { Self → T → T → Bool };

    /// What `hash` answers.
    ghost hash: { Self → T → ℤ };

    fn same(&self, a: &T, b: &T) -> bool
        ensures { result ≡ same self.now a.now b.now };

    fn hash(&self, a: &T) -> i32
        ensures { result ≡ hash self.now a.now };

    ghost equivalence: { (o : Self) → IsEquivalence (same o) };

    ghost alike: { (o : Self) (a b : T) → same o a b ≡ true → hash o a ≡ hash o b };
}

/// A test of elements.
pub trait Test<T> {
    /// What `holds` answers.
    ghost passes: { Self → T → Bool };

    fn holds(&self, value: &T) -> bool
        ensures { result ≡ passes self.now value.now };
}
