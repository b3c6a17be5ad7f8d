// What is looked for in a tree of buckets.
ghost use Rattle.std.specs.Prelude.{◌≡◌, ℤ, Bool};

use imm_base::HashEq;

/// What is looked for among elements: a test, and the hash that an element has which passes it.
pub trait Seek<T> {
    /// What `meets` answers.
    ghost meets: { Self → T → Bool };

    /// What `hash` answers.
    ghost hash: { Self → ℤ };

    fn meets(&self, item: &T) -> bool
        ensures { result ≡ meets self.now item.now };

    fn hash(&self) -> i32
        ensures { result ≡ hash self.now };
}

/// What is same to a value.
#[derive(Drop)]
pub struct SameAs<'a, T, H> {
    pub value: &'a T,
    pub eq: H,
}

impl<T, H: HashEq<T>> Seek<T> for SameAs<'_, T, H> {
    ghost meets = { λ sought x. H.same sought.eq sought.value.now x };

    ghost hash = { λ sought. H.hash sought.eq sought.value.now };

    fn meets(&self, item: &T) -> bool {
        self.eq.same(self.value, item)
    }

    fn hash(&self) -> i32 {
        self.eq.hash(self.value)
    }
}
