// Elements one after another, and a place among them.
ghost use Rattle.std.specs.Prelude.{◌≡◌, ◌<◌, drop, length, slice_get, IfOk, Some};
ghost use Rattle.std.specs.Option.{option_copied};
ghost use Rattle.enumerators.specs.Series.{EachFilled, IsInside, IsPlace, bucket_rest, first_place, series_rest};

use avl_node::Tree;
use hash_bucket::{Bucket, HashTree};
use imm_base::{HashEq, Key, Memory};

/// The elements of a collection, in the tree that holds them.
#[derive(Drop)]
pub enum Series<T> {
    /// In the tree's order.
    List(Tree<T>),
    /// One bucket after another.
    Buckets(Tree<Bucket<T>>),
}

/// A place before an element of a series, or at its end.
#[derive(Clone, Copy)]
pub struct Place {
    /// Which element of the tree.
    pub node: u32,
    /// Which item of that bucket, and 0 in a list.
    pub item: usize,
}

impl Place {
    pub(crate) fn start() -> Place
        ensures { result ≡ first_place }
    {
        Place { node: 0, item: 0 }
    }
}

impl<T> Series<T> {
    // The elements of a list.
    pub(crate) fn of_list(list: Tree<T>) -> Series<T>
        ensures whole { series_rest result first_place ≡ list.items }
        ensures place { IsPlace result first_place }
    {
        Series::List(list)
    }

    // The element at the place, which moves behind it.
    pub(crate) fn next_at(&self, place: &mut Place) -> Option<&T>
        requires { IsPlace self.now place.old }
        ensures place { IsPlace self.now place.new }
        ensures first { option_copied result ≡ slice_get (series_rest self.now place.old) 0 }
        ensures rest { series_rest self.now place.new ≡ drop 1 (series_rest self.now place.old) }
    {
        match self {
            Series::List(list) => next_of_list(list, place),
            Series::Buckets(buckets) => next_of_buckets(buckets, place),
        }
    }
}

#[tactic(auto, using(crate::proofs::Steps::list_steps))]
fn next_of_list<'a, T>(list: &'a Tree<T>, place: &mut Place) -> Option<&'a T>
    ensures first { option_copied result ≡ slice_get (drop place.old.node list.now.items) 0 }
    ensures rest { drop place.new.node list.now.items
        ≡ drop 1 (drop place.old.node list.now.items) }
{
    let element = list.at(place.node)?;
    // (for the proof alone: that the count fits 32 bits)
    let _count = list.count();
    place.node += 1;
    Some(element)
}

#[tactic(auto, using(crate::proofs::Steps::bucket_steps))]
fn next_of_buckets<'a, T>(buckets: &'a Tree<Bucket<T>>, place: &mut Place) -> Option<&'a T>
    requires filled { EachFilled buckets.now.items }
    requires inside { IsInside buckets.now.items place.old }
    ensures inside { IsInside buckets.now.items place.new }
    ensures first { option_copied result ≡ slice_get (bucket_rest buckets.now.items place.old) 0 }
    ensures rest { bucket_rest buckets.now.items place.new
        ≡ drop 1 (bucket_rest buckets.now.items place.old) }
{
    let items = buckets.at(place.node)?.items();
    // (for the proof alone: that the count fits 32 bits)
    let _count = buckets.count();
    let item = item_at(items, place.item);
    if place.item + 1 < items.len() {
        place.item += 1;
    } else {
        place.node += 1;
        place.item = 0;
    }
    Some(item)
}

fn item_at<T>(items: &[T], index: usize) -> &T
    requires { index < length items.now }
    ensures { slice_get items.now index ≡ Some result.now }
{
    &items[index]
}

impl<T: Key> Series<T> {
    // The elements of a tree of buckets, by hash and then in their own order.
    #[tactic(auto, using(crate::proofs::Steps::each_filled))]
    pub(crate) fn of_hashed<H: HashEq<T>>(hashed: &HashTree<T, H>) -> Result<Series<T>, Memory>
        ensures whole { IfOk result (λ s. series_rest s first_place ≡ hashed.now.items) }
        ensures place { IfOk result (λ s. IsPlace s first_place) }
    {
        let buckets = hashed.tree().share()?;
        Ok(Series::Buckets(buckets))
    }
}
