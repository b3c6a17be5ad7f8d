// The array.
ghost use Rattle.std.specs.Prelude.{◌≡◌, ◌<◌, ◌≤◌, [], Ok, Some, IfErr, IfOk, IfSome, MatchResult, length, position, reverse, slice_get, vec_len};
ghost use Rattle.std.specs.List.{list_any};
ghost use Rattle.imm_base.specs.Lists.{clear, last_position, list_add, list_add_range, list_insert, list_remove, list_remove_at, list_replace, list_set_item};
ghost use Rattle.imm_array.specs.Answers.{Answers, AnswersMade, array_made};

use crate::copies::{copied, put_copies};
use crate::fault::ArrayFault;
use imm_base::{Dup, Edit, Item, LIMIT, Memory};
use std::alloc::{AllocFailed, Global};
use std::marker::Model;
use std::sync::Arc;

/// An immutable array of at most `LIMIT` elements. Two arrays may share their elements, also in
/// different threads.
///
/// A changing call answers `Edit::Same` where the array stays as it is, and otherwise another array,
/// which is a whole copy; this one stays in any case.
#[derive(Drop)]
pub struct ImmArray<T> {
    contents: Contents<T>,
}

// The empty array takes no memory.
#[derive(Drop)]
pub(crate) enum Contents<T> {
    Nothing,
    Shared(Arc<Vec<T>, Global>),
}

impl<T> Model for ImmArray<T> {
    ghost use Rattle.std.specs.Prelude.{List};
    ghost use Rattle.std.specs.Coded.{coded_list};
    ghost use Rattle.imm_base.specs.Kept.{IsShort};
    ghost use Rattle.imm_array.specs.Contents.{contents_items};

    ghost Value = { List T };

    ghost coded = { coded_list T.code };

    ghost view = { λ a. contents_items a.contents };

    ghost invariant = { λ a. IsShort (contents_items a.contents) };
}

impl<T> ImmArray<T> {
    /// The empty array. O(1).
    pub fn new() -> ImmArray<T>
        ensures { result ≡ [] }
    {
        ImmArray {
            contents: Contents::Nothing,
        }
    }

    /// The array of these values, or they themselves where there is no memory. O(1).
    pub(crate) fn of_vec(alloc: Global, values: Vec<T>) -> Result<ImmArray<T>, AllocFailed<Vec<T>>>
        requires { vec_len values ≤ LIMIT }
        ensures array { IfOk result (λ array. array ≡ values.items) }
        ensures failed { IfErr result (λ failed. failed.value ≡ values) }
    {
        match Arc::new(alloc, values) {
            Ok(shared) => Ok(ImmArray {
                contents: Contents::Shared(shared),
            }),
            Err(failed) => Err(failed),
        }
    }

    /// The elements. O(1).
    pub fn as_slice(&self) -> &[T]
        ensures elements { result.now ≡ self.now }
        ensures short { length self.now ≤ LIMIT }
    {
        match &self.contents {
            Contents::Nothing => &[],
            Contents::Shared(values) => values.as_slice(),
        }
    }

    /// How many elements there are. O(1).
    pub fn count(&self) -> u32
        ensures count { result ≡ length self.now }
        ensures short { length self.now ≤ LIMIT }
    {
        self.as_slice().len() as u32
    }

    /// The element at `index`. O(1).
    pub fn get(&self, index: u32) -> Result<&T, ArrayFault>
        ensures { MatchResult result (λ value. slice_get self.now index ≡ Some value.now) (λ fault. (fault ≡ ArrayFault.OutOfRange index (length self.now)) × (length self.now ≤ index)) }
    {
        let count = self.count();
        if index >= count {
            return Err(ArrayFault::OutOfRange { index, count });
        }
        Ok(&self.as_slice()[index as usize])
    }

    /// An equal array that shares the elements. O(1).
    pub fn share(&self) -> Result<ImmArray<T>, Memory>
        ensures { IfOk result (λ array. array ≡ self.now) }
    {
        match &self.contents {
            Contents::Nothing => Ok(ImmArray::new()),
            Contents::Shared(values) => {
                let shared = Arc::try_clone(values)?;
                Ok(ImmArray {
                    contents: Contents::Shared(shared),
                })
            }
        }
    }
}

impl<T: Drop> ImmArray<T> {
    /// The empty array. O(1).
    pub fn clear(&self) -> Edit<ImmArray<T>>
        ensures { Answers (Ok result) (clear self.now) }
    {
        if self.count() == 0 {
            Edit::Same
        } else {
            Edit::New(ImmArray::new())
        }
    }
}

impl<T: Dup> ImmArray<T> {
    /// Copies of the elements. O(n).
    pub fn to_vec(&self, alloc: Global) -> Result<Vec<T>, Memory>
        ensures { IfOk result (λ v. v.items ≡ self.now) }
    {
        copied(alloc, self.as_slice(), 0)
    }
}

// The array of these values, as another one.
fn edited<T: Drop>(alloc: Global, values: Vec<T>) -> Result<Edit<ImmArray<T>>, ArrayFault>
    requires { vec_len values ≤ LIMIT }
    ensures { Answers result (Ok (Edit.New values.items)) }
{
    match ImmArray::of_vec(alloc, values) {
        Ok(array) => Ok(Edit::New(array)),
        Err(_) => Err(ArrayFault::Memory),
    }
}

impl<T: Item> ImmArray<T> {
    /// The array of these values. More than the limit are refused with the count 0. O(n).
    pub fn from_slice(alloc: Global, values: &[T]) -> Result<ImmArray<T>, ArrayFault>
        ensures { AnswersMade result (array_made values.now) }
    {
        if values.len() > LIMIT as usize {
            return Err(ArrayFault::TooLarge { count: 0 });
        }
        let values = copied(alloc, values, 0)?;
        match ImmArray::of_vec(alloc, values) {
            Ok(array) => Ok(array),
            Err(_) => Err(ArrayFault::Memory),
        }
    }

    /// The array with the value behind it. O(n).
    pub fn add(&self, alloc: Global, value: T) -> Result<Edit<ImmArray<T>>, ArrayFault>
        ensures { Answers result (list_add value self.now) }
    {
        let count = self.count();
        if count >= LIMIT {
            return Err(ArrayFault::TooLarge { count });
        }
        let mut values = copied(alloc, self.as_slice(), 1)?;
        if values.push(value).is_err() {
            return Err(ArrayFault::Memory);
        }
        edited(alloc, values)
    }

    /// The array with the values behind it. O(n + m).
    pub fn add_range(&self, alloc: Global, values: &[T]) -> Result<Edit<ImmArray<T>>, ArrayFault>
        ensures { Answers result (list_add_range values.now self.now) }
    {
        let count = self.count();
        if values.len() > (LIMIT - count) as usize {
            return Err(ArrayFault::TooLarge { count });
        }
        if values.is_empty() {
            return Ok(Edit::Same);
        }
        let mut all = copied(alloc, self.as_slice(), values.len())?;
        put_copies(alloc, values, &mut all)?;
        edited(alloc, all)
    }

    /// The array with the value before the element at `index`, which may be the count. O(n).
    pub fn insert(
        &self,
        alloc: Global,
        index: u32,
        value: T,
    ) -> Result<Edit<ImmArray<T>>, ArrayFault>
        ensures { Answers result (list_insert index value self.now) }
    {
        let count = self.count();
        if index > count {
            return Err(ArrayFault::OutOfRange { index, count });
        }
        if count >= LIMIT {
            return Err(ArrayFault::TooLarge { count });
        }
        let mut values = copied(alloc, self.as_slice(), 1)?;
        if values.insert(index as usize, value).is_err() {
            return Err(ArrayFault::Memory);
        }
        edited(alloc, values)
    }

    /// The array without the element at `index`. O(n).
    pub fn remove_at(&self, alloc: Global, index: u32) -> Result<Edit<ImmArray<T>>, ArrayFault>
        ensures { Answers result (list_remove_at index self.now) }
    {
        let count = self.count();
        if index >= count {
            return Err(ArrayFault::OutOfRange { index, count });
        }
        let mut values = copied(alloc, self.as_slice(), 0)?;
        let _removed = values.remove(index as usize);
        edited(alloc, values)
    }

    /// The array with the value in place of the element at `index`. O(n).
    pub fn set_item(
        &self,
        alloc: Global,
        index: u32,
        value: T,
    ) -> Result<Edit<ImmArray<T>>, ArrayFault>
        ensures { Answers result (list_set_item index value self.now) }
    {
        let count = self.count();
        if index >= count {
            return Err(ArrayFault::OutOfRange { index, count });
        }
        let mut values = copied(alloc, self.as_slice(), 0)?;
        values[index as usize] = value;
        edited(alloc, values)
    }

    /// The array without the first element that equals the value. O(n).
    pub fn remove(&self, alloc: Global, value: &T) -> Result<Edit<ImmArray<T>>, ArrayFault>
        ensures { Answers result (list_remove T.eq value.now self.now) }
    {
        let Some(index) = self.index_of(value) else {
            return Ok(Edit::Same);
        };
        let mut values = copied(alloc, self.as_slice(), 0)?;
        let _removed = values.remove(index as usize);
        edited(alloc, values)
    }

    /// The array with the value in place of the first element that equals `old`. O(n).
    pub fn replace(&self, alloc: Global, old: &T, value: T) -> Result<Edit<ImmArray<T>>, ArrayFault>
        ensures { Answers result (list_replace T.eq old.now value self.now) }
    {
        let Some(index) = self.index_of(old) else {
            return Err(ArrayFault::NotFound);
        };
        let mut values = copied(alloc, self.as_slice(), 0)?;
        values[index as usize] = value;
        edited(alloc, values)
    }

    /// The place of the first element that equals the value. O(n).
    pub fn index_of(&self, value: &T) -> Option<u32>
        ensures place { result ≡ position (λ x. T.eq x value.now) self.now }
        ensures within { IfSome result (λ place. place < length self.now) }
    {
        match place_of(self.as_slice(), value) {
            Some(place) => Some(place as u32),
            None => None,
        }
    }

    /// The place of the last element that equals the value. O(n).
    pub fn last_index_of(&self, value: &T) -> Option<u32>
        ensures { result ≡ last_position (λ x. T.eq x value.now) self.now }
    {
        let count = self.count();
        match behind_last(self.as_slice(), value) {
            Some(behind) => Some(count - 1 - behind as u32),
            None => None,
        }
    }

    /// Whether some element equals the value. O(n).
    pub fn contains(&self, value: &T) -> bool
        ensures { result ≡ list_any (λ x. T.eq x value.now) self.now }
    {
        self.as_slice().contains(value)
    }
}

// The place of the first element that equals the value.
fn place_of<T: Eq>(values: &[T], value: &T) -> Option<usize>
    ensures place { result ≡ position (λ x. T.eq x value.now) values.now }
    ensures within { IfSome result (λ place. place < length values.now) }
{
    values.iter().position(|x| *x == *value)
}

// How many elements stand behind the last that equals the value.
fn behind_last<T: Eq>(values: &[T], value: &T) -> Option<usize>
    ensures place { result ≡ position (λ x. T.eq x value.now) (reverse values.now) }
    ensures within { IfSome result (λ behind. behind < length values.now) }
{
    values.iter().rev().position(|x| *x == *value)
}
