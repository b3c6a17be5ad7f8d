// The builder of lists: what it stands on, and what it publishes.
ghost use Rattle.std.specs.Prelude.{◌≡◌, length, IfOk, Ok};
ghost use Rattle.imm_base.specs.Lists.{clear};
ghost use Rattle.plain_model.specs.Builders.{new_builder};
ghost use Rattle.builders.specs.Changes.{Adopts, CanCount};
ghost use Rattle.builders.specs.Lists.{Changes};

use crate::versioned::Versioned;
use avl_link::Link;
use avl_node::Tree;
use imm_base::{Edit, Item, Memory, Step};
use imm_list::ImmList;
use std::alloc::Global;
use std::marker::Model;

/// A list that is built in place, with the calls of a list. Contracts see its elements, and the
/// number of changes that gave another list.
///
/// A refused change, and one without memory, leaves both as they were. A change has the condition
/// that `version()` is below the greatest `u64`. It copies the nodes on its way that were
/// published, and changes the others in place, which no clause says.
#[derive(Drop)]
pub struct ListBuilder<T> {
    pub(crate) built: Versioned<T>,
}

impl<T> Model for ListBuilder<T> {
    ghost use Rattle.std.specs.Prelude.{List};
    ghost use Rattle.plain_model.specs.Builders.{Built};

    ghost Value = { Built (List T) };

    ghost view = { λ a. a.built };
}

impl<T> ListBuilder<T> {
    /// How many changes gave another list. O(1).
    pub fn version(&self) -> u64
        ensures { result ≡ self.now.changes }
    {
        self.built.version()
    }

    /// How many elements there are. O(1).
    pub fn count(&self) -> u32
        ensures { result ≡ length self.now.contents }
    {
        self.link().count()
    }

    // The elements.
    pub(crate) fn link(&self) -> &Link<T>
        ensures { result.now.items ≡ self.now.contents }
    {
        self.built.link()
    }
}

impl<T: Item> ListBuilder<T> {
    /// A builder of the list, whose nodes it shares. O(1).
    pub fn from(list: &ImmList<T>) -> Result<ListBuilder<T>, Memory>
        ensures { IfOk result (λ builder. builder ≡ new_builder list.now) }
    {
        Ok(ListBuilder {
            built: Versioned::of_tree(list.tree())?,
        })
    }

    /// The list as it is now, which no later change alters. O(k) for the k nodes that were made
    /// since the last such call.
    pub fn to_immutable(&mut self, alloc: Global) -> Result<ImmList<T>, Memory>
        ensures published { IfOk result (λ list. list ≡ self.old.contents) }
        ensures same { self.new ≡ self.old }
    {
        Ok(ImmList::of_tree(self.built.freeze(alloc)?))
    }

    /// Copies of the elements. O(n).
    pub fn to_vec(&self, alloc: Global) -> Result<Vec<T>, Memory>
        ensures { IfOk result (λ v. v.items ≡ self.now.contents) }
    {
        self.link().to_vec(alloc)
    }

    /// Takes out all elements. O(1), besides the nodes that nobody shares.
    pub fn clear(&mut self) -> Step
        requires { CanCount self.old }
        ensures { Changes (Ok result) (clear self.old.contents) self.old self.new }
    {
        if self.count() == 0 {
            return Step::Same;
        }
        self.built.put(Link::new());
        Step::New
    }

    // The other list, where there is one, in place of the elements.
    pub(crate) fn adopt(&mut self, edit: Edit<ImmList<T>>) -> Result<Step, Memory>
        requires { CanCount self.old }
        ensures { Adopts result edit self.old self.new }
    {
        let Edit::New(list) = edit else {
            return Ok(Step::Same);
        };
        self.built.put(Link::of_tree(list.tree())?);
        Ok(Step::New)
    }
}
