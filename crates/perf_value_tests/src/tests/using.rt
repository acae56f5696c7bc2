//! A caller: what it promises follows from the contracts of the history, without a proof by hand.

ghost use Rattle.std.specs.Prelude.{◌≡◌, ◌∷◌, [], IfOk};
ghost use Rattle.perf_history.specs.Histories.{name_of, place_of};

use perf_history::{Change, History, Mode, Name, Place};
use std::alloc::{AllocError, Global};

/// The name of a thread after two changes.
pub fn name_after_two<'p>(
    alloc: Global,
    first: Change<'p>,
    second: Change<'p>,
    tid: u32,
) -> Result<Name<'p>, AllocError>
    ensures { IfOk result (λ name. name ≡ name_of (second.entry ∷ first.entry ∷ []) tid) }
{
    let mut history = History::new(alloc);
    history.apply(first)?;
    history.apply(second)?;
    Ok(history.comm(tid))
}

/// What is mapped at an address of a process after a change.
pub fn place_after_one<'p>(
    alloc: Global,
    change: Change<'p>,
    pid: u32,
    address: u64,
) -> Result<Option<Place<'p>>, AllocError>
    ensures { IfOk result (λ place. place ≡ place_of (change.entry ∷ []) pid Mode.User address) }
{
    let mut history = History::new(alloc);
    history.apply(change)?;
    Ok(history.memory(pid, Mode::User).place(address))
}
