// Pairs by their keys.
use imm_base::{HashEq, Pair};

/// An equality of pairs: they are same where their keys are, and have the hashes of their keys.
#[derive(Clone, Copy, Debug, PartialEq, Eq)]
pub struct ByKey<H> {
    pub eq: H,
}

impl<K, V, H: HashEq<K>> HashEq<Pair<K, V>> for ByKey<H> {
    ghost use Rattle.std.specs.Ordering.{on};
    ghost use Rattle.std.specs.Cmp.{on_equiv};

    ghost same = { λ by. on (λ p. p.key) (H.same by.eq) };

    ghost hash = { λ by p. H.hash by.eq p.key };

    fn same(&self, a: &Pair<K, V>, b: &Pair<K, V>) -> bool {
        self.eq.same(&a.key, &b.key)
    }

    fn hash(&self, a: &Pair<K, V>) -> i32 {
        self.eq.hash(&a.key)
    }

    ghost equivalence = { λ by. on_equiv (λ p. p.key) (H.equivalence by.eq) };

    ghost alike = { λ by a b e. H.alike by.eq a.key b.key e };
}
