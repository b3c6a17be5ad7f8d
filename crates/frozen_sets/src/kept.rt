// Which elements stay.
ghost use Rattle.std.specs.Prelude.{◌≡◌, ◌≤◌, IfOk, vec_len};
ghost use Rattle.imm_base.specs.Lists.{sorted};
ghost use Rattle.frozen_sets.specs.Kept.{TiesToo, firsts};

use imm_base::{Memory, Order};

// The values in order. Those that compare equal stay as they stood to each other.
fn in_order<T: Drop, O: Order<T>>(mut values: Vec<T>, order: &O) -> Result<Vec<T>, Memory>
    ensures items { IfOk result (λ v. v.items ≡ sorted (O.order order.now) values.items) }
    ensures len { IfOk result (λ v. vec_len v ≡ vec_len values) }
{
    values.sort_by(|a, b| order.compare(a, b))?;
    Ok(values)
}

// The first of the values that compare equal, in order. O(n log n).
pub(crate) fn firsts<T: Drop, O: Order<T>>(values: Vec<T>, order: &O) -> Result<Vec<T>, Memory>
    ensures items { IfOk result (λ v. v.items ≡ firsts (O.order order.now) (O.order order.now)
        values.items) }
    ensures len { IfOk result (λ v. vec_len v ≤ vec_len values) }
{
    let mut values = in_order(values, order)?;
    values.dedup_by(|value, kept| order.compare(value, kept).is_eq());
    Ok(values)
}

// The first of the values that `by` calls equal, in another order. O(n log n).
pub(crate) fn kept<T: Drop, B: Order<T>, O: Order<T>>(
    values: Vec<T>,
    by: &B,
    order: &O,
) -> Result<Vec<T>, Memory>
    requires { TiesToo (O.order order.now) (B.order by.now) }
    ensures items { IfOk result (λ v. v.items ≡ firsts (O.order order.now) (B.order by.now)
        values.items) }
    ensures len { IfOk result (λ v. vec_len v ≤ vec_len values) }
{
    in_order(firsts(values, by)?, order)
}
