//! What is mapped where in each address space.
#![tactic(auto)]

ghost use Rattle.std.specs.Prelude.{ℕ, ◌≤◌, length};
ghost use Rattle.perf_history.specs.Forests.{found, reach};
ghost use Rattle.perf_history.specs.Trees.{tree_in};

use crate::forests::{Forest, Tree};
use std::alloc::{AllocError, Global};
use std::collections::BTreeMap;

/// A number, or none, at each address of each address space.
#[derive(Debug, Drop)]
pub struct Spaces {
    trees: BTreeMap<u32, Tree>,
    forest: Forest,
    ghost inside: { (space : ℕ) → reach (tree_in trees space) ≤ length forest },
}

impl Spaces {
    ghost use Rattle.std.specs.Prelude.{◌≡◌, ◌+◌, ◌<◌, ◌^◌, ◌==◌, ◌&&◌, OnOk, OnErr, Option, None, if◌then◌else◌};
    ghost use Rattle.perf_history.specs.Ranges.{is_within};
    ghost use Rattle.perf_history.specs.Spaces.{number_at, IsAs};

    /// Nothing anywhere.
    pub fn new(alloc: Global) -> Spaces
        ensures { (space address : ℕ) → number_at result space address ≡ None }
    {
        Spaces {
            trees: BTreeMap::new(alloc),
            forest: Forest::new(alloc),
        }
    }

    /// How many branches its trees have.
    pub fn branch_count(&self) -> usize
        ensures { result ≡ length self.now.forest }
    {
        self.forest.len()
    }

    /// The tree of an address space.
    pub fn tree(&self, space: u32) -> Tree
        ensures value { result ≡ tree_in self.now.trees space }
        ensures inside { reach result ≤ length self.now.forest }
    {
        match self.trees.get(&space) {
            Some(tree) => *tree,
            None => Tree::Empty,
        }
    }

    /// What a tree has at an address.
    pub fn find(&self, tree: Tree, address: u64) -> Option<u32>
        requires { reach tree ≤ length self.now.forest }
        ensures { result ≡ found self.now.forest tree address }
    {
        self.forest.find(tree, address)
    }

    // Gives an address space a tree.
    fn put(&mut self, space: u32, tree: Tree) -> Result<(), AllocError>
        requires { reach tree ≤ length self.old.forest }
        ensures forest { self.new.forest ≡ self.old.forest }
        ensures ok { OnOk result ((other : ℕ) →
            tree_in self.new.trees other ≡ (if space == other then tree else tree_in self.old.trees other)) }
        ensures err { OnErr result ((other : ℕ) →
            tree_in self.new.trees other ≡ tree_in self.old.trees other) }
    {
        self.trees.insert(space, tree)?;
        Ok(())
    }

    /// Puts a number, or none, at each of the `len` addresses from `start` on. Out of memory nothing
    /// changes.
    pub fn assign(
        &mut self,
        space: u32,
        start: u64,
        len: u64,
        number: Option<u32>,
    ) -> Result<(), AllocError>
        ensures ok { OnOk result ((other address : ℕ) → address < 2 ^ 64 →
            number_at self.new other address ≡ (if space == other && is_within start len address
            then number else number_at self.old other address)) }
        ensures err { OnErr result (IsAs self.old self.new) }
    {
        let tree = self.tree(space);
        let tree = self.forest.assign(tree, start, len, number)?;
        self.put(space, tree)
    }

    /// Makes an address space as another one is. Out of memory nothing changes.
    pub fn copy(&mut self, from: u32, to: u32) -> Result<(), AllocError>
        ensures ok { OnOk result ((other address : ℕ) →
            number_at self.new other address ≡ (if to == other
            then number_at self.old from address else number_at self.old other address)) }
        ensures err { OnErr result (IsAs self.old self.new) }
    {
        let tree = self.tree(from);
        self.put(to, tree)
    }
}
