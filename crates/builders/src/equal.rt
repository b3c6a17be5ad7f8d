// The test of elements by equality.
use imm_base::Test;

// Whether an element equals the value.
#[derive(Drop)]
pub(crate) struct EqualTo<'a, T> {
    pub(crate) value: &'a T,
}

impl<T: Eq> Test<T> for EqualTo<'_, T> {
    ghost passes = { λ test x. T.eq x test.value.now };

    fn holds(&self, value: &T) -> bool {
        *value == *self.value
    }
}
