//! The comparers of kinds.
ghost use Rattle.std.specs.Prelude.{◌≡◌};
ghost use Rattle.plain_model.specs.Comparers.{order_named, equality_named, name_of_order};
ghost use Rattle.plain_model.specs.Comparers.{name_of_equality, comparer_of, with_comparer};
ghost use Rattle.plain_model.specs.Comparers.{has_comparer};

use crate::{Comparer, Kind};
use imm_base::{ValEq, ValOrder};

impl Comparer {
    /// The order of this name, where it names one.
    pub fn order(self) -> Option<ValOrder>
        ensures { result ≡ order_named self }
    {
        match self {
            Comparer::Ordinal => Some(ValOrder::Ordinal),
            Comparer::Reverse => Some(ValOrder::Reverse),
            Comparer::NoCase => Some(ValOrder::NoCase),
            Comparer::One => None,
        }
    }

    /// The equality of this name, where it names one.
    pub fn equality(self) -> Option<ValEq>
        ensures { result ≡ equality_named self }
    {
        match self {
            Comparer::Ordinal => Some(ValEq::Ordinal),
            Comparer::NoCase => Some(ValEq::NoCase),
            Comparer::One => Some(ValEq::One),
            Comparer::Reverse => None,
        }
    }
}

impl Kind {
    /// The comparer of a kind that has one.
    pub fn comparer(self) -> Option<Comparer>
        ensures { result ≡ comparer_of self }
    {
        match self {
            Kind::SSet(order) | Kind::SMap(order) => Some(name_of_order(order)),
            Kind::Dict(eq) | Kind::HSet(eq) => Some(name_of_equality(eq)),
            _ => None,
        }
    }

    /// The kind with another comparer, where it may have it.
    pub fn with_comparer(self, comparer: Comparer) -> Option<Kind>
        ensures { result ≡ with_comparer self comparer }
    {
        match self {
            Kind::SSet(_) => comparer.order().map(Kind::SSet),
            Kind::SMap(_) => comparer.order().map(Kind::SMap),
            Kind::Dict(_) => comparer.equality().map(Kind::Dict),
            Kind::HSet(_) => comparer.equality().map(Kind::HSet),
            _ => None,
        }
    }

    /// Whether the comparer is the kind's own.
    pub fn has_comparer(self, comparer: Comparer) -> bool
        ensures { result ≡ has_comparer self comparer }
    {
        self.comparer() == Some(comparer)
    }
}

fn name_of_order(order: ValOrder) -> Comparer
    ensures { result ≡ name_of_order order }
{
    match order {
        ValOrder::Ordinal => Comparer::Ordinal,
        ValOrder::Reverse => Comparer::Reverse,
        ValOrder::NoCase => Comparer::NoCase,
    }
}

fn name_of_equality(eq: ValEq) -> Comparer
    ensures { result ≡ name_of_equality eq }
{
    match eq {
        ValEq::Ordinal => Comparer::Ordinal,
        ValEq::NoCase => Comparer::NoCase,
        ValEq::One => Comparer::One,
    }
}
