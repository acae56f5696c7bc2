//! Stacks, one after another in the same memory.

ghost use Rattle.std.specs.Prelude.{◌≡◌, ◌++◌, [], OnOk, map};
ghost use Rattle.perf_flame.specs.Stacks.{clean, frame_text};
ghost use Rattle.perf_flame.specs.Names as names;

use crate::kept::{KeptFrames, number_of_text, spot_of};
use crate::names::{Frames, push_thread};
use crate::stack::Stack;
use perf_history::{Mode, Name, Place};
use std::alloc::{AllocError, Global};

// A number of a stack with one more part, by the number of that.
fn joined(number: u64, part: u64) -> u64 {
    (number ^ part).wrapping_mul(0x9e37_79b9_7f4a_7c15)
}

/// The text of a stack, which grows from the outermost frame to the innermost. In names `;` and control
/// bytes become `_`.
///
/// A call fails only if memory runs out, and then the text is of no use before the next
/// [`Stacks::start`].
#[derive(Drop)]
pub struct Stacks<'p> {
    name: Vec<u8>,
    stack: Stack,
    number: u64,
    kept: KeptFrames<'p>,
}

impl<'p> Stacks<'p> {
    ghost use Rattle.perf_flame.specs.Grown.{text_of};

    /// The stack of a thread without a name.
    pub fn new(alloc: Global) -> Stacks<'p>
        ensures { text_of result ≡ [] }
    {
        Stacks {
            name: Vec::new(alloc),
            stack: Stack::new(alloc),
            number: 0,
            kept: KeptFrames::new(alloc),
        }
    }

    /// Begins anew, with the name of a thread.
    pub fn start(&mut self, thread: Name<'_>) -> Result<(), AllocError>
        ensures { OnOk result (text_of self.new ≡ map clean (names.thread_name thread.entry)) }
    {
        self.name.clear();
        push_thread(&mut self.name, thread)?;
        self.number = number_of_text(&self.name);
        self.stack.start(&self.name)
    }

    /// Appends a frame that has a name, such as that of an event.
    pub fn push_named(&mut self, name: &[u8]) -> Result<(), AllocError>
        ensures { OnOk result (text_of self.new ≡ text_of self.old ++ frame_text name.now) }
    {
        self.number = joined(self.number, number_of_text(name));
        self.stack.push_frame(name)
    }

    /// Appends the frame of an address at which code runs in this mode: the name of the file that is
    /// mapped there, and the offset in it, or the address if it is the kernel's. Where nothing is
    /// mapped, it is `[unknown]`.
    pub fn push(
        &mut self,
        frames: Frames,
        mode: Mode,
        address: u64,
        place: Option<Place<'p>>,
    ) -> Result<(), AllocError>
        ensures { OnOk result (text_of self.new ≡ text_of self.old
            ++ frame_text (names.frame_name frames mode address place.entry)) }
    {
        let spot = spot_of(frames, mode, address, place);
        let part = self.kept.push(&mut self.stack, spot)?;
        self.number = joined(self.number, part);
        Ok(())
    }

    /// The text so far.
    pub fn text(&self) -> &[u8]
        ensures { result.now ≡ text_of self.now }
    {
        self.stack.text()
    }

    /// A number that is the same for the same text, and differs for most texts.
    pub fn number(&self) -> u64 {
        self.number
    }
}
