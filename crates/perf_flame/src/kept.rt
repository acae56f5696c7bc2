//! The frames of addresses, which are kept because chains have them again and again.

ghost use Rattle.std.specs.Prelude.{◌≡◌, ◌++◌, IfOk, IfSome, OnOk};
ghost use Rattle.std.specs.Bool.{OnTrue};
ghost use Rattle.perf_flame.specs.Stacks.{frame_text};
ghost use Rattle.perf_flame.specs.StackText as texts;
ghost use Rattle.perf_flame.specs.Names as names;
ghost use Rattle.perf_flame.specs.Spots.{spot_name};

use crate::names::{Frames, push_file, push_kernel, push_offset};
use crate::stack::Stack;
use perf_history::{File, Mode, Place};
use std::alloc::{AllocError, Global};

// There are 2 to this power of slots, and a few more.
const BITS: u32 = 14;

// How many slots there are for each frame.
const WAYS: usize = 4;

/// What the name of a frame is made of.
#[derive(Clone, Copy, Debug)]
pub(crate) enum Spot<'p> {
    /// An address of the kernel.
    Kernel(u64),
    /// A file, and an offset in it.
    Placed(File<'p>, u64),
    /// A file alone.
    Whole(File<'p>),
    /// Nothing is mapped there.
    Unknown,
}

// What the name of an address is made of, by what is mapped there.
pub(crate) fn spot_of<'p>(
    frames: Frames,
    mode: Mode,
    address: u64,
    place: Option<Place<'p>>,
) -> Spot<'p>
    ensures { spot_name result ≡ names.frame_name frames mode address place.entry }
{
    match (mode, place, frames) {
        (Mode::Kernel, _, _) => Spot::Kernel(address),
        (_, None, _) => Spot::Unknown,
        (_, Some(place), Frames::Offsets) => Spot::Placed(place.file, place.offset),
        (_, Some(place), Frames::Files) => Spot::Whole(place.file),
    }
}

// Whether two files have the same name, because they are named by the same.
#[inline(always)]
fn is_same_file(first: &File<'_>, second: &File<'_>) -> bool
    ensures { OnTrue result (names.file_name first.now ≡ names.file_name second.now) }
{
    match (first, second) {
        (File::Named(first), File::Named(second)) => first == second,
        (File::PerfMap(first), File::PerfMap(second)) => first == second,
        (File::Symbol(first), File::Symbol(second)) => first == second,
        _ => false,
    }
}

// Whether two frames have the same name, because it is made of the same.
#[inline(always)]
fn is_same(first: &Spot<'_>, second: &Spot<'_>) -> bool
    ensures { OnTrue result (spot_name first.now ≡ spot_name second.now) }
{
    match (first, second) {
        (Spot::Kernel(first), Spot::Kernel(second)) => first == second,
        (Spot::Placed(first, offset), Spot::Placed(second, other)) => {
            offset == other && is_same_file(first, second)
        }
        (Spot::Whole(first), Spot::Whole(second)) => is_same_file(first, second),
        (Spot::Unknown, Spot::Unknown) => true,
        _ => false,
    }
}

// A number that differs for most texts.
pub(crate) fn number_of_text(text: &[u8]) -> u64 {
    text.iter().fold(
        0u64,
        |sum, byte| sum.wrapping_mul(31).wrapping_add(u64::from(*byte)),
    )
}

// A number that differs for most files.
fn number_of(file: File<'_>) -> u64 {
    match file {
        File::Named(name) | File::Symbol(name) => number_of_text(name),
        File::PerfMap(pid) => u64::from(pid),
    }
}

// The first slot for a frame, which differs for most frames.
fn first_slot(spot: Spot<'_>) -> usize {
    let number = match spot {
        Spot::Kernel(address) => address,
        Spot::Placed(_, offset) => offset,
        Spot::Whole(file) => number_of(file),
        Spot::Unknown => 0,
    };
    (number.wrapping_mul(0x9e37_79b9_7f4a_7c15) >> (64 - BITS)) as usize
}

// Appends the name of a frame.
fn push_spot(text: &mut Vec<u8>, spot: Spot<'_>) -> Result<(), AllocError>
    ensures { OnOk result (text.new.items ≡ text.old.items ++ spot_name spot.entry) }
{
    match spot {
        Spot::Kernel(address) => push_kernel(text, address),
        Spot::Placed(file, offset) => {
            push_file(text, file)?;
            push_offset(text, offset)
        }
        Spot::Whole(file) => push_file(text, file),
        Spot::Unknown => text.extend_from_slice(b"[unknown]"),
    }
}

/// A frame, and its text in a stack.
#[derive(Drop)]
pub(crate) struct Kept<'p> {
    spot: Spot<'p>,
    stack: Stack,
    number: u64,
    ghost is_text: { texts.stack_text stack ≡ frame_text (spot_name spot) },
}

impl<'p> Kept<'p> {
    // A frame with that name.
    fn new(alloc: Global, spot: Spot<'p>, name: &[u8]) -> Result<Kept<'p>, AllocError>
        requires { name.now ≡ spot_name spot }
        ensures { IfOk result (λ kept. kept.spot ≡ spot.entry) }
    {
        let mut stack = Stack::new(alloc);
        stack.push_frame(name)?;
        let number = number_of_text(stack.text());
        Ok(Kept {
            spot,
            stack,
            number,
        })
    }
}

/// Frames whose texts are kept. If all slots for a new one are taken, it takes the first of them.
#[derive(Drop)]
pub(crate) struct KeptFrames<'p> {
    alloc: Global,
    name: Vec<u8>,
    kept: Vec<Kept<'p>>,
    slots: Vec<usize>,
}

impl<'p> KeptFrames<'p> {
    /// None.
    pub(crate) fn new(alloc: Global) -> KeptFrames<'p> {
        KeptFrames {
            alloc,
            name: Vec::new(alloc),
            kept: Vec::new(alloc),
            slots: Vec::new(alloc),
        }
    }

    // The frame that has the same name, if it is in one of the slots from the first one for it on.
    fn find(&self, spot: &Spot<'_>, first: usize) -> Option<&Kept<'p>>
        ensures { IfSome result (λ kept. spot_name kept.now.spot ≡ spot_name spot.now) }
    {
        let slots = self.slots.get(first..)?.first_chunk::<WAYS>()?;
        for index in slots {
            let kept = self.kept.get(*index)?;
            if is_same(&kept.spot, spot) {
                return Some(kept);
            }
        }
        None
    }

    // The slot for a new frame.
    fn slot_from(&self, first: usize) -> usize {
        for slot in first..first.saturating_add(WAYS) {
            match self.slots.get(slot) {
                Some(index) if *index >= self.kept.len() => return slot,
                _ => (),
            }
        }
        first
    }

    // Puts a frame in a slot.
    fn keep(&mut self, slot: usize, kept: Kept<'p>) -> Result<(), AllocError> {
        let Some(index) = self.slots.get_mut(slot) else {
            return Ok(());
        };
        if *index < self.kept.len() {
            self.kept[*index] = kept;
        } else {
            *index = self.kept.len();
            self.kept.push(kept)?;
        }
        Ok(())
    }

    // Appends the text of a frame that is not kept yet, keeps it, and returns its number.
    #[cold]
    #[inline(never)]
    fn push_new(
        &mut self,
        stack: &mut Stack,
        spot: Spot<'p>,
        first: usize,
    ) -> Result<u64, AllocError>
        ensures { OnOk result (texts.stack_text stack.new
            ≡ texts.stack_text stack.old ++ frame_text (spot_name spot.entry)) }
    {
        self.name.clear();
        push_spot(&mut self.name, spot)?;
        let kept = Kept::new(self.alloc, spot, &self.name)?;
        stack.append(&kept.stack)?;
        if self.slots.is_empty() {
            self.slots.resize((1 << BITS) + WAYS, usize::MAX)?;
        }
        let slot = self.slot_from(first);
        let number = kept.number;
        self.keep(slot, kept)?;
        Ok(number)
    }

    /// Appends the text of a frame in a stack, and returns a number that differs for most frames.
    pub(crate) fn push(&mut self, stack: &mut Stack, spot: Spot<'p>) -> Result<u64, AllocError>
        ensures { OnOk result (texts.stack_text stack.new
            ≡ texts.stack_text stack.old ++ frame_text (spot_name spot.entry)) }
    {
        let first = first_slot(spot);
        match self.find(&spot, first) {
            Some(kept) => {
                stack.append(&kept.stack)?;
                Ok(kept.number)
            }
            None => self.push_new(stack, spot, first),
        }
    }
}
