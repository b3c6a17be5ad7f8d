// A list that is built in place, and the number of its changes: what all builders stand on.
ghost use Rattle.std.specs.Prelude.{◌≡◌, ◌+◌, ◌<◌, ◌≤◌, [], length, insert, remove, slice_set, IfOk, if◌then◌else◌, is_ok};
ghost use Rattle.avl_node.specs.Shape.{Fits};
ghost use Rattle.plain_model.specs.Builders.{new_builder};
ghost use Rattle.builders.specs.Changes.{CanCount, built_on};

use avl_link::Link;
use avl_node::Tree;
use imm_base::{Item, Memory};
use std::alloc::Global;
use std::marker::Model;

/// A list that is built in place, and how many changes gave another list.
#[derive(Drop)]
pub(crate) struct Versioned<T> {
    link: Link<T>,
    version: u64,
}

impl<T> Model for Versioned<T> {
    ghost use Rattle.std.specs.Prelude.{List};
    ghost use Rattle.plain_model.specs.Builders.{Built};

    ghost Value = { Built (List T) };

    ghost view = { λ a. record { contents = a.link.items; changes = a.version } };
}

impl<T> Versioned<T> {
    // The list.
    pub(crate) fn link(&self) -> &Link<T>
        ensures { result.now.items ≡ self.now.contents }
    {
        &self.link
    }

    // How many changes gave another list.
    pub(crate) fn version(&self) -> u64
        ensures { result ≡ self.now.changes }
    {
        self.version
    }
}

impl<T: Drop> Versioned<T> {
    // The other list in place of the list.
    pub(crate) fn put(&mut self, link: Link<T>)
        requires { CanCount self.old }
        ensures { self.new ≡ built_on link.items self.old }
    {
        self.link = link;
        self.version += 1;
    }
}

impl<T: Item> Versioned<T> {
    // The list of the tree, with no change so far.
    pub(crate) fn of_tree(tree: &Tree<T>) -> Result<Versioned<T>, Memory>
        ensures { IfOk result (λ built. built ≡ new_builder tree.now.items) }
    {
        let link = Link::of_tree(tree)?;
        Ok(Versioned { link, version: 0 })
    }

    // The list as a tree of shared nodes.
    pub(crate) fn freeze(&mut self, alloc: Global) -> Result<Tree<T>, Memory>
        ensures tree { IfOk result (λ tree. tree.items ≡ self.old.contents) }
        ensures same { self.new ≡ self.old }
    {
        self.link.freeze(alloc)
    }

    // Puts the value before the element at the index, which may be the count.
    pub(crate) fn insert(&mut self, alloc: Global, index: u32, value: T) -> Result<(), Memory>
        requires in_range { index ≤ length self.old.contents }
        requires count_fits { Fits (length self.old.contents + 1) }
        requires counts { CanCount self.old }
        ensures { self.new ≡ (if is_ok result
            then built_on (insert self.old.contents index value) self.old
            else self.old) }
    {
        self.link.insert_within(alloc, index, value)?;
        self.version += 1;
        Ok(())
    }

    // Takes out the element at the index.
    pub(crate) fn remove(&mut self, alloc: Global, index: u32) -> Result<(), Memory>
        requires in_range { index < length self.old.contents }
        requires counts { CanCount self.old }
        ensures { self.new ≡ (if is_ok result
            then built_on (remove self.old.contents index) self.old
            else self.old) }
    {
        // (for the proof alone: that the count fits 32 bits)
        let _count = self.link.count();
        self.link.remove_within(alloc, index)?;
        self.version += 1;
        Ok(())
    }

    // Puts the value in place of the element at the index.
    pub(crate) fn replace(&mut self, alloc: Global, index: u32, value: T) -> Result<(), Memory>
        requires in_range { index < length self.old.contents }
        requires counts { CanCount self.old }
        ensures { self.new ≡ (if is_ok result
            then built_on (slice_set self.old.contents index value) self.old
            else self.old) }
    {
        self.link.replace_within(alloc, index, value)?;
        self.version += 1;
        Ok(())
    }
}
