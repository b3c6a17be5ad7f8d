// The orders by which keys are kept and told apart.
ghost use Rattle.std.specs.Prelude.{◌≡◌};
ghost use Rattle.frozen_sets.specs.Kept.{order_of};

use crate::pieces::{piece, text};
use imm_base::{Order, Val, ValEq, ValOrder};
use std::cmp::Ordering;

// The order that calls the values equal that are same.
pub(crate) fn order_of(eq: ValEq) -> ValOrder
    ensures { result ≡ order_of eq }
{
    match eq {
        ValEq::Ordinal | ValEq::One => ValOrder::Ordinal,
        ValEq::NoCase => ValOrder::NoCase,
    }
}

// Pairs by their keys.
#[derive(Clone, Copy, Debug, PartialEq, Eq)]
pub(crate) struct ByKey {
    pub(crate) order: ValOrder,
}

impl<V> Order<(Val, V)> for ByKey {
    ghost use Rattle.std.specs.Ordering.{on};
    ghost use Rattle.std.specs.Cmp.{on_total};
    ghost use Rattle.imm_base.specs.Order.{order_cmp};
    ghost use Rattle.imm_base.specs.OrderLaws.{order_total};

    ghost order = { λ by. on (λ e. e.0) (order_cmp by.order) };

    fn compare(&self, a: &(Val, V), b: &(Val, V)) -> Ordering {
        self.order.compare(&a.0, &b.0)
    }

    ghost total = { λ by. on_total (λ e. e.0) (order_total by.order) };
}

// Texts by their length.
#[derive(Clone, Copy, Debug, PartialEq, Eq)]
pub(crate) struct ByLength;

impl Order<Val> for ByLength {
    ghost use Rattle.std.specs.Prelude.{length};
    ghost use Rattle.std.specs.Ordering.{nat_cmp, on};
    ghost use Rattle.std.specs.Cmp.{nat_cmp_total, on_total};
    ghost use Rattle.plain_model.specs.Frozen.{text_bytes};

    ghost order = { λ _. on (λ key. length (text_bytes key)) nat_cmp };

    fn compare(&self, a: &Val, b: &Val) -> Ordering {
        text(a).len().cmp(&text(b).len())
    }

    ghost total = { λ _. on_total (λ key. length (text_bytes key)) nat_cmp_total };
}

// Texts by a piece of them.
#[derive(Clone, Copy, Debug, PartialEq, Eq)]
pub(crate) struct ByPiece {
    pub(crate) start: u32,
    pub(crate) len: u32,
}

impl Order<Val> for ByPiece {
    ghost use Rattle.std.specs.Ordering.{nat_cmp, on};
    ghost use Rattle.std.specs.Cmp.{on_total};
    ghost use Rattle.std.specs.Cmp.Lexicographic.{nat_list_cmp_total, slice_cmp};
    ghost use Rattle.frozen_sets.specs.Codes.{piece_of};
    ghost use Rattle.plain_model.specs.Frozen.{text_bytes};

    ghost order = { λ by. on (λ key. piece_of by.start by.len (text_bytes key))
        (slice_cmp nat_cmp) };

    fn compare(&self, a: &Val, b: &Val) -> Ordering {
        let a = piece(text(a), self.start, self.len);
        let b = piece(text(b), self.start, self.len);
        a.cmp(b)
    }

    ghost total = { λ by. on_total (λ key. piece_of by.start by.len (text_bytes key))
        nat_list_cmp_total };
}
