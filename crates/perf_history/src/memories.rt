//! What is mapped in one memory.
#![tactic(auto)]

ghost use Rattle.std.specs.Prelude.{◌≡◌, ◌<◌, ◌≤◌, ◌^◌, ℕ, Some, length, vec_len};
ghost use Rattle.perf_history.specs.Forests.{found, reach};

use crate::forests::Tree;
use crate::histories::History;
use crate::places::Place;

/// What is mapped in the memory in which a process runs code in one mode, at one moment. For many
/// addresses this is faster than [`History::place`].
#[derive(Clone, Copy, Debug)]
pub struct Memory<'h, 'p> {
    pub(crate) history: &'h History<'p>,
    pub(crate) tree: Tree,
    ghost inside: { reach tree ≤ length history.now.spaces.forest },
    ghost known: { (address index : ℕ) → address < 2 ^ 64 →
        found history.now.spaces.forest tree address ≡ Some index → index < vec_len history.now.mappings },
}

impl<'h, 'p> Memory<'h, 'p> {
    ghost use Rattle.perf_history.specs.Memories.{place_at};

    /// What is mapped at an address.
    #[tactic(auto, unfolding(crate::specs::Memories::place_at))]
    pub fn place(&self, address: u64) -> Option<Place<'p>>
        ensures { result ≡ place_at self.now address }
    {
        let index = self.history.spaces.find(self.tree, address)?;
        Some(self.history.mappings[index as usize].place(address))
    }
}
