//! The lines of a call chain.

ghost use Rattle.std.specs.Prelude.{◌≡◌, ◌++◌, ℕ, OnOk, List, codes};
ghost use Rattle.perf_history.specs.Histories.{place_of};
ghost use Rattle.perf_history.specs.Memories.{IsMemory};
ghost use Rattle.perf_history.specs.Recorded.{IsHistory};
ghost use Rattle.perf_history.specs.declared.changes.Change.{Change};
ghost use Rattle.perf_history.specs.declared.changes.Mode.TheVariants as modes;
ghost use Rattle.perf_script.specs.Chains as chains;
ghost use Rattle.perf_columns.specs.Columns.{address_column};
ghost use Rattle.perf_columns.specs.Files.{place_column};

use perf_columns::cells::cells_of;
use perf_columns::columns::push_address;
use perf_columns::files::{push_place, shown_address};
use perf_history::{History, Memory, Mode, Place};
use perf_walk::Call;
use std::alloc::AllocError;

// Appends the line of an address alone.
fn push_bare(text: &mut Vec<u8>, address: u64) -> Result<(), AllocError>
    ensures { OnOk result (text.new.items ≡ text.old.items
        ++ (codes "\t" ++ (address_column address ++ codes "\n"))) }
{
    text.extend_from_slice(b"\t")?;
    push_address(text, address)?;
    text.extend_from_slice(b"\n")
}

// Appends the line of an address and what is there.
#[inline(always)]
fn push_named(
    text: &mut Vec<u8>,
    mode: Mode,
    address: u64,
    place: Option<Place<'_>>,
) -> Result<(), AllocError>
    ensures { OnOk result (text.new.items ≡ text.old.items
        ++ (codes "\t" ++ (address_column address ++ (place_column mode place.entry ++ codes "\n")))) }
{
    text.extend_from_slice(&cells_of(address))?;
    push_place(text, mode, place)?;
    text.extend_from_slice(b")\n")
}

// Appends the line of an address, by what is there, which is named or not.
#[inline(always)]
fn push_placed(
    text: &mut Vec<u8>,
    with_place: bool,
    mode: Mode,
    address: u64,
    place: Option<Place<'_>>,
) -> Result<(), AllocError>
    ensures { OnOk result (text.new.items ≡ text.old.items
        ++ chains.placed_line with_place mode address place.entry) }
{
    let shown = shown_address(mode, address, place);
    if with_place {
        push_named(text, mode, shown, place)
    } else {
        push_bare(text, shown)
    }
}

// What is mapped at an address, by the memories in which a process runs code of its own and of the
// kernel. That of a hypervisor or a guest is not known.
fn place_at<'p>(
    user: &Memory<'_, 'p>,
    kernel: &Memory<'_, 'p>,
    mode: Mode,
    address: u64,
) -> Option<Place<'p>>
    ensures { (changes : List Change) (pid : ℕ) → IsMemory user.now changes pid modes.User →
        IsMemory kernel.now changes pid modes.Kernel → result ≡ place_of changes pid mode address }
{
    match mode {
        Mode::User => user.place(address),
        Mode::Kernel => kernel.place(address),
        Mode::Other => None,
    }
}

// Appends the line of a call.
fn push_call<'p>(
    text: &mut Vec<u8>,
    with_place: bool,
    user: &Memory<'_, 'p>,
    kernel: &Memory<'_, 'p>,
    call: Call,
) -> Result<(), AllocError>
    ensures { (changes : List Change) (pid : ℕ) → IsMemory user.now changes pid modes.User →
        IsMemory kernel.now changes pid modes.Kernel → OnOk result
        (text.new.items ≡ text.old.items ++ chains.call_line with_place changes pid call) }
{
    let place = place_at(user, kernel, call.mode, call.address);
    push_placed(text, with_place, call.mode, call.address, place)
}

// Appends the lines of calls.
fn push_each<'p>(
    text: &mut Vec<u8>,
    with_place: bool,
    user: &Memory<'_, 'p>,
    kernel: &Memory<'_, 'p>,
    calls: &[Call],
) -> Result<(), AllocError>
    ensures { (changes : List Change) (pid : ℕ) → IsMemory user.now changes pid modes.User →
        IsMemory kernel.now changes pid modes.Kernel → OnOk result
        (text.new.items ≡ text.old.items ++ chains.call_lines with_place changes pid calls.now) }
{
    for call in calls {
        push_call(text, with_place, user, kernel, *call)?;
    }
    Ok(())
}

// Appends the lines of a chain of a process, whose memories are looked up once.
pub(crate) fn push_calls(
    text: &mut Vec<u8>,
    with_place: bool,
    history: &History<'_>,
    pid: u32,
    calls: &[Call],
) -> Result<(), AllocError>
    ensures { (changes : List Change) → IsHistory history.now changes →
        OnOk result (text.new.items ≡ text.old.items
        ++ chains.call_lines with_place changes pid calls.now) }
{
    let user = history.memory(pid, Mode::User);
    let kernel = history.memory(pid, Mode::Kernel);
    push_each(text, with_place, &user, &kernel, calls)
}
