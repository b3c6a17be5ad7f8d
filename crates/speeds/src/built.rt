// Builders, which are changed in place and published again and again.
ghost use Rattle.std.specs.Prelude.{◌<◌, ◌-◌, ◌^◌};

use crate::measured::{Measured, sum_of_walk, value_of};
use crate::row::Row;
use builders::{DictBuilder, HashSetBuilder, ListBuilder, MapBuilder, SetBuilder};
use enumerators::Walked;
use imm_base::{Step, Val, ValEq, ValOrder};
use imm_dictionary::{Dict, ImmHashSet};
use imm_list::ImmList;
use sorted_maps::SortedMap;
use sorted_sets::SortedSet;
use std::alloc::Global;

/// What is done with one element.
#[derive(Clone, Copy)]
pub(crate) enum Change {
    PutIn,
    TakeOut,
}

/// A builder whose calls are measured, of the same elements as a collection.
pub(crate) trait Built: Walked + Drop + Sized {
    /// What it is called in the output.
    const NAME: &'static str;

    /// The immutable collection.
    type Collection: Drop;

    /// A builder of nothing. `None`: for want of memory.
    fn empty() -> Option<Self>;

    /// Makes the change with the element of the number. `None`: it was refused.
    fn change(&mut self, alloc: Global, change: Change, number: u32) -> Option<Step>
        requires { Self.changes self.old < 2 ^ 64 - 1 };

    /// The collection as it is now. `None`: for want of memory.
    fn publish(&mut self, alloc: Global) -> Option<Self::Collection>;
}

/// A builder in the place of a collection, and what it published last, which keeps its nodes.
#[derive(Drop)]
pub(crate) struct InPlace<B: Built> {
    builder: B,
    published: Option<B::Collection>,
}

impl<B: Built> InPlace<B> {
    fn change(&mut self, alloc: Global, change: Change, number: u32) -> Option<Step> {
        if self.builder.version() == u64::MAX {
            return None;
        }
        self.builder.change(alloc, change, number)
    }
}

impl<B: Built> Measured for InPlace<B> {
    const NAME: &'static str = B::NAME;

    fn build(alloc: Global, values: &[Val]) -> Option<Self> {
        let mut built = InPlace {
            builder: B::empty()?,
            published: None,
        };
        for number in 0..u32::try_from(values.len()).ok()? {
            let _step = built.change(alloc, Change::PutIn, number)?;
        }
        Some(built)
    }

    fn call(&mut self, alloc: Global, row: Row, number: u32) -> Option<u64> {
        match row {
            Row::Walk => sum_of_walk(alloc, &mut self.builder),
            Row::Change => {
                let out = self.change(alloc, Change::TakeOut, number)?;
                let back = self.change(alloc, Change::PutIn, number)?;
                Some(u64::from(out == Step::New && back == Step::New))
            }
            Row::Publish => {
                self.published = Some(self.builder.publish(alloc)?);
                Some(1)
            }
            _ => None,
        }
    }
}

impl Built for ListBuilder<Val> {
    const NAME: &'static str = "list builder";

    type Collection = ImmList<Val>;

    fn empty() -> Option<Self> {
        ListBuilder::from(&ImmList::new()).ok()
    }

    fn change(&mut self, alloc: Global, change: Change, number: u32) -> Option<Step> {
        match change {
            Change::PutIn => self.insert(alloc, number, value_of(number)).ok(),
            Change::TakeOut => self.remove_at(alloc, number).ok(),
        }
    }

    fn publish(&mut self, alloc: Global) -> Option<ImmList<Val>> {
        self.to_immutable(alloc).ok()
    }
}

impl Built for SetBuilder<Val, ValOrder> {
    const NAME: &'static str = "sorted set builder";

    type Collection = SortedSet<Val, ValOrder>;

    fn empty() -> Option<Self> {
        SetBuilder::from(&SortedSet::new(ValOrder::Ordinal)).ok()
    }

    fn change(&mut self, alloc: Global, change: Change, number: u32) -> Option<Step> {
        match change {
            Change::PutIn => self.add(alloc, value_of(number)).ok(),
            Change::TakeOut => self.remove(alloc, &value_of(number)).ok(),
        }
    }

    fn publish(&mut self, alloc: Global) -> Option<SortedSet<Val, ValOrder>> {
        self.to_immutable(alloc).ok()
    }
}

impl Built for MapBuilder<Val, Val, ValOrder> {
    const NAME: &'static str = "sorted map builder";

    type Collection = SortedMap<Val, Val, ValOrder>;

    fn empty() -> Option<Self> {
        MapBuilder::from(&SortedMap::new(ValOrder::Ordinal)).ok()
    }

    fn change(&mut self, alloc: Global, change: Change, number: u32) -> Option<Step> {
        match change {
            Change::PutIn => self.add(alloc, value_of(number), value_of(number)).ok(),
            Change::TakeOut => self.remove(alloc, &value_of(number)).ok(),
        }
    }

    fn publish(&mut self, alloc: Global) -> Option<SortedMap<Val, Val, ValOrder>> {
        self.to_immutable(alloc).ok()
    }
}

impl Built for DictBuilder<Val, Val, ValEq> {
    const NAME: &'static str = "dictionary builder";

    type Collection = Dict<Val, Val, ValEq>;

    fn empty() -> Option<Self> {
        DictBuilder::from(&Dict::new(ValEq::Ordinal)).ok()
    }

    fn change(&mut self, alloc: Global, change: Change, number: u32) -> Option<Step> {
        match change {
            Change::PutIn => self.add(alloc, value_of(number), value_of(number)).ok(),
            Change::TakeOut => self.remove(alloc, &value_of(number)).ok(),
        }
    }

    fn publish(&mut self, _alloc: Global) -> Option<Dict<Val, Val, ValEq>> {
        self.to_immutable().ok()
    }
}

impl Built for HashSetBuilder<Val, ValEq> {
    const NAME: &'static str = "hash set builder";

    type Collection = ImmHashSet<Val, ValEq>;

    fn empty() -> Option<Self> {
        HashSetBuilder::from(&ImmHashSet::new(ValEq::Ordinal)).ok()
    }

    fn change(&mut self, alloc: Global, change: Change, number: u32) -> Option<Step> {
        match change {
            Change::PutIn => self.add(alloc, value_of(number)).ok(),
            Change::TakeOut => self.remove(alloc, &value_of(number)).ok(),
        }
    }

    fn publish(&mut self, _alloc: Global) -> Option<ImmHashSet<Val, ValEq>> {
        self.to_immutable().ok()
    }
}
