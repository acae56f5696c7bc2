//! Trees that have a number, or none, at each address.
//!
//! Branches never change, and a tree is the index of one: so trees share branches, and a copy of a
//! tree is a copy of an index. The two sides of a branch are kept nearly as tall as one another, so
//! that a search and a change take few steps. No contract states that: where trees are turned for
//! it, the order of their bounds is tested, and what they have stays the same whatever it is.
#![tactic(auto)]

ghost use Rattle.std.specs.Prelude.{◌≡◌, ◌+◌, ◌<◌, ◌≤◌, [], length, nat_lt, IfOk, if◌then◌else◌};
ghost use Rattle.perf_history.specs.Forests.{reach, found, Keeps, Joins, IsBranch, IsLike, IsLikeBelow, IsLikeFrom, EndsAt, Assigns, number_in};

use std::alloc::{AllocError, Global};
use std::marker::Model;

// Beyond this difference of heights, two trees side by side are made level.
const SLACK: u8 = 2;

/// What is at each address.
#[derive(Clone, Copy, Debug)]
pub enum Tree {
    /// There is no number.
    Empty,
    /// One number, at each address.
    Whole(u32),
    /// It depends on the address, by the branch with this index.
    Split(u32),
}

/// Two trees side by side.
#[derive(Clone, Copy, Debug)]
pub struct Branch {
    /// The first address at which it is as the upper tree.
    pub bound: u64,
    /// What it is below the bound.
    pub lower: Tree,
    /// What it is from the bound on.
    pub upper: Tree,
    /// How many branches are on the longest way down, this one included.
    pub height: u8,
}

impl Branch {
    // What it is at an address. It is chosen by its place, which is faster than by its value.
    fn side(&self, address: u64) -> &Tree
        ensures { result.now ≡ (if nat_lt address self.now.bound then self.now.lower else self.now.upper) }
    {
        if address < self.bound {
            &self.lower
        } else {
            &self.upper
        }
    }
}

/// The branches of which trees are made.
#[derive(Debug, Drop)]
pub struct Forest {
    branches: Vec<Branch>,
}

impl Model for Forest {
    ghost use Rattle.std.specs.Prelude.{List, reverse};
    ghost use Rattle.perf_history.specs.declared.forests.Branch.{Branch};
    ghost use Rattle.perf_history.specs.Forests.{IsForest};

    ghost Value = { List Branch };

    ghost view = { λ f. reverse f.branches.items };

    ghost invariant = { λ f. IsForest (reverse f.branches.items) };
}

// A tree without branches.
fn leaf(number: Option<u32>) -> Tree
    ensures no_branch { reach result ≡ 0 }
    ensures value { number_in result ≡ number }
{
    match number {
        Some(number) => Tree::Whole(number),
        None => Tree::Empty,
    }
}

impl Forest {
    /// No branches.
    pub fn new(alloc: Global) -> Forest
        ensures { result ≡ [] }
    {
        Forest {
            branches: Vec::new(alloc),
        }
    }

    /// How many branches there are.
    pub fn len(&self) -> usize
        ensures { result ≡ length self.now }
    {
        self.branches.len()
    }

    // The branch with this index.
    fn branch(&self, index: u32) -> &Branch
        requires { index < length self.now }
        ensures { IsBranch self.now (Tree.Split index) result.now }
    {
        &self.branches[index as usize]
    }

    /// What a tree has at an address.
    pub fn find(&self, tree: Tree, address: u64) -> Option<u32>
        requires { reach tree ≤ length self.now }
        ensures { result ≡ found self.now tree address }
    {
        let mut tree = tree;
        while let Tree::Split(index) = tree {
            tree = *self.branch(index).side(address);
        }
        match tree {
            Tree::Whole(number) => Some(number),
            _ => None,
        }
    }

    // How many branches are on the longest way down.
    fn height(&self, tree: Tree) -> u8
        requires { reach tree ≤ length self.now }
    {
        match tree {
            Tree::Split(index) => self.branch(index).height,
            _ => 0,
        }
    }

    // Whether a tree is so much taller than another that they have to be made level.
    fn is_taller(&self, tall: Tree, short: Tree) -> bool
        requires tall_in { reach tall ≤ length self.now }
        requires short_in { reach short ≤ length self.now }
    {
        self.height(tall) > self.height(short).saturating_add(SLACK)
    }

    // The tree of a new branch.
    fn push(&mut self, branch: Branch) -> Result<Tree, AllocError>
        requires lower_in { reach branch.lower ≤ length self.old }
        requires upper_in { reach branch.upper ≤ length self.old }
        ensures keeps { Keeps self.old self.new }
        ensures joins { IfOk result (Joins self.old self.new branch.lower branch.bound branch.upper) }
    {
        let Ok(index) = u32::try_from(self.branches.len()) else {
            return Err(AllocError);
        };
        self.branches.push(branch)?;
        Ok(Tree::Split(index))
    }

    // Two trees side by side.
    fn pair(&mut self, lower: Tree, bound: u64, upper: Tree) -> Result<Tree, AllocError>
        requires lower_in { reach lower ≤ length self.old }
        requires upper_in { reach upper ≤ length self.old }
        ensures keeps { Keeps self.old self.new }
        ensures joins { IfOk result (Joins self.old self.new lower bound upper) }
    {
        let height = self.height(lower).max(self.height(upper)).saturating_add(1);
        self.push(Branch {
            bound,
            lower,
            upper,
            height,
        })
    }

    // The same, with the upper side of the lower tree moved up.
    fn turn_up(&mut self, lower: Tree, bound: u64, upper: Tree) -> Result<Tree, AllocError>
        requires lower_in { reach lower ≤ length self.old }
        requires upper_in { reach upper ≤ length self.old }
        ensures keeps { Keeps self.old self.new }
        ensures joins { IfOk result (Joins self.old self.new lower bound upper) }
    {
        if let Tree::Split(index) = lower {
            let branch = *self.branch(index);
            if branch.bound <= bound {
                let moved = self.pair(branch.upper, bound, upper)?;
                return self.pair(branch.lower, branch.bound, moved);
            }
        }
        self.pair(lower, bound, upper)
    }

    // The same, with the lower side of the upper tree moved down.
    fn turn_down(&mut self, lower: Tree, bound: u64, upper: Tree) -> Result<Tree, AllocError>
        requires lower_in { reach lower ≤ length self.old }
        requires upper_in { reach upper ≤ length self.old }
        ensures keeps { Keeps self.old self.new }
        ensures joins { IfOk result (Joins self.old self.new lower bound upper) }
    {
        if let Tree::Split(index) = upper {
            let branch = *self.branch(index);
            if bound <= branch.bound {
                let moved = self.pair(lower, bound, branch.lower)?;
                return self.pair(moved, branch.bound, branch.upper);
            }
        }
        self.pair(lower, bound, upper)
    }

    // A tree whose upper side is not the taller one.
    fn lean_down(&mut self, tree: Tree) -> Result<Tree, AllocError>
        requires { reach tree ≤ length self.old }
        ensures keeps { Keeps self.old self.new }
        ensures like { IfOk result (IsLike self.old self.new tree) }
    {
        if let Tree::Split(index) = tree {
            let branch = *self.branch(index);
            if self.height(branch.upper) > self.height(branch.lower) {
                return self.turn_down(branch.lower, branch.bound, branch.upper);
            }
        }
        Ok(tree)
    }

    // A tree whose lower side is not the taller one.
    fn lean_up(&mut self, tree: Tree) -> Result<Tree, AllocError>
        requires { reach tree ≤ length self.old }
        ensures keeps { Keeps self.old self.new }
        ensures like { IfOk result (IsLike self.old self.new tree) }
    {
        if let Tree::Split(index) = tree {
            let branch = *self.branch(index);
            if self.height(branch.lower) > self.height(branch.upper) {
                return self.turn_up(branch.lower, branch.bound, branch.upper);
            }
        }
        Ok(tree)
    }

    // Two trees side by side, made level if they differ by one more than is allowed.
    fn level(&mut self, lower: Tree, bound: u64, upper: Tree) -> Result<Tree, AllocError>
        requires lower_in { reach lower ≤ length self.old }
        requires upper_in { reach upper ≤ length self.old }
        ensures keeps { Keeps self.old self.new }
        ensures joins { IfOk result (Joins self.old self.new lower bound upper) }
    {
        if self.is_taller(lower, upper) {
            let lower = self.lean_down(lower)?;
            return self.turn_up(lower, bound, upper);
        }
        if self.is_taller(upper, lower) {
            let upper = self.lean_up(upper)?;
            return self.turn_down(lower, bound, upper);
        }
        self.pair(lower, bound, upper)
    }

    // Two trees of any heights side by side.
    fn join(&mut self, lower: Tree, bound: u64, upper: Tree) -> Result<Tree, AllocError>
        requires lower_in { reach lower ≤ length self.old }
        requires upper_in { reach upper ≤ length self.old }
        ensures keeps { Keeps self.old self.new }
        ensures joins { IfOk result (Joins self.old self.new lower bound upper) }
    {
        if self.is_taller(lower, upper)
            && let Tree::Split(index) = lower
        {
            let branch = *self.branch(index);
            if branch.bound <= bound {
                let rest = self.join(branch.upper, bound, upper)?;
                return self.level(branch.lower, branch.bound, rest);
            }
        }
        if self.is_taller(upper, lower)
            && let Tree::Split(index) = upper
        {
            let branch = *self.branch(index);
            if bound <= branch.bound {
                let rest = self.join(lower, bound, branch.lower)?;
                return self.level(rest, branch.bound, branch.upper);
            }
        }
        self.pair(lower, bound, upper)
    }

    // A tree that is as another below a bound.
    fn part_below(&mut self, tree: Tree, bound: u64) -> Result<Tree, AllocError>
        requires { reach tree ≤ length self.old }
        ensures keeps { Keeps self.old self.new }
        ensures like { IfOk result (IsLikeBelow bound self.old self.new tree) }
    {
        if let Tree::Split(index) = tree {
            let branch = *self.branch(index);
            if bound <= branch.bound {
                return self.part_below(branch.lower, bound);
            }
            let rest = self.part_below(branch.upper, bound)?;
            return self.join(branch.lower, branch.bound, rest);
        }
        Ok(tree)
    }

    // A tree that is as another from a bound on.
    fn part_from(&mut self, tree: Tree, bound: u64) -> Result<Tree, AllocError>
        requires { reach tree ≤ length self.old }
        ensures keeps { Keeps self.old self.new }
        ensures like { IfOk result (IsLikeFrom bound self.old self.new tree) }
    {
        if let Tree::Split(index) = tree {
            let branch = *self.branch(index);
            if branch.bound <= bound {
                return self.part_from(branch.upper, bound);
            }
            let rest = self.part_from(branch.lower, bound)?;
            return self.join(rest, branch.bound, branch.upper);
        }
        Ok(tree)
    }

    // A tree up to the end of a range, and another one after it.
    fn up_to_end(
        &mut self,
        front: Tree,
        start: u64,
        len: u64,
        tree: Tree,
    ) -> Result<Tree, AllocError>
        requires front_in { reach front ≤ length self.old }
        requires tree_in { reach tree ≤ length self.old }
        ensures keeps { Keeps self.old self.new }
        ensures ends { IfOk result (EndsAt (start + len) self.old self.new front tree) }
    {
        let Some(end) = start.checked_add(len) else {
            return Ok(front);
        };
        let rest = self.part_from(tree, end)?;
        self.join(front, end, rest)
    }

    /// A tree that has a number, or none, at each of the `len` addresses from `start` on, and is as
    /// another at the others. Addresses do not wrap: if the last of them is past 2^64 - 1, the
    /// range ends there.
    pub fn assign(
        &mut self,
        tree: Tree,
        start: u64,
        len: u64,
        number: Option<u32>,
    ) -> Result<Tree, AllocError>
        requires { reach tree ≤ length self.old }
        ensures keeps { Keeps self.old self.new }
        ensures assigns { IfOk result (Assigns start len number self.old self.new tree) }
    {
        let front = self.part_below(tree, start)?;
        let back = self.up_to_end(leaf(number), start, len, tree)?;
        self.join(front, start, back)
    }
}
