//! The calls of a call chain.

ghost use Rattle.std.specs.Prelude.{◌≡◌, ◌≤◌, ◌++◌, ◌∷◌, ◌/◌, OnOk, IfOk, Some, ℕ, List, length, take, drop};
ghost use Rattle.perf_base.specs.Configuration.{Configuration};
ghost use Rattle.perf_base.specs.Dynamic.{order_of};
ghost use Rattle.perf_base.specs.Layout.{words_of};
ghost use Rattle.perf_flat.specs.Flat.{IsFlat};
ghost use Rattle.perf_sample_types.specs.Sample.{SampleValue};
ghost use Rattle.perf_walk.specs.Calls as chains;
ghost use Rattle.perf_walk.specs.Samples.{sample_of};

use crate::parts::string;
use perf_base::Endian;
use perf_base::endian::Dynamic;
use perf_flat::frame::FlatFrame;
use perf_history::Mode;
use std::alloc::AllocError;

/// An address of a call chain, and the mode in which code runs there.
#[derive(Clone, Copy, Debug, PartialEq, Eq)]
pub struct Call {
    /// The mode.
    pub mode: Mode,
    /// The address.
    pub address: u64,
}

// In front of addresses of the kernel (`PERF_CONTEXT_KERNEL`).
const KERNEL_FOLLOWS: u64 = u64::MAX - 127;

// In front of addresses of a process (`PERF_CONTEXT_USER`).
const USER_FOLLOWS: u64 = u64::MAX - 511;

// The first of the numbers that are marks and no addresses (`PERF_CONTEXT_MAX`).
const FIRST_MARK: u64 = u64::MAX - 4094;

// The mode after a mark.
fn mode_after(mark: u64) -> Mode
    ensures { result ≡ chains.mode_after mark }
{
    match mark {
        KERNEL_FOLLOWS => Mode::Kernel,
        USER_FOLLOWS => Mode::User,
        _ => Mode::Other,
    }
}

// Appends the call at a number of a chain, unless that is a mark, and returns the mode after it.
fn push_number(calls: &mut Vec<Call>, mode: Mode, number: u64) -> Result<Mode, AllocError>
    ensures { IfOk result (λ next. (rest : List ℕ) → calls.new.items ++ chains.calls_in next rest
        ≡ calls.old.items ++ chains.calls_in mode (number ∷ rest)) }
{
    if number < FIRST_MARK {
        calls.push(Call {
            mode,
            address: number,
        })?;
        Ok(mode)
    } else {
        Ok(mode_after(number))
    }
}

// The first number, of eight bytes, and the bytes after it.
fn next_number(order: Dynamic, bytes: &[u8]) -> (u64, &[u8])
    requires { 8 ≤ length bytes.now }
    ensures number { result.0 ≡ (order_of order).eight (take 8 bytes.now) }
    ensures after { result.1.now ≡ drop 8 bytes.now }
{
    let number = match bytes.first_chunk::<8>() {
        Some(eight) => order.convert_u64(*eight),
        None => 0,
    };
    (number, &bytes[8..])
}

/// Appends the calls of a chain, the innermost first, by its numbers of eight bytes. A chain begins
/// in user mode; marks among the numbers change that: -128 to the kernel, -512 to user mode, and
/// any other from -4095 on to a mode that is not known.
pub fn push_chain(calls: &mut Vec<Call>, order: Dynamic, chain: &[u8]) -> Result<(), AllocError>
    ensures { OnOk result (calls.new.items ≡ calls.old.items
        ++ chains.chain_calls (words_of (order_of order) (length chain.now / 8) chain.now)) }
{
    let count = chain.len() / 8;
    let mut mode = Mode::User;
    let mut left = chain;
    for _index in 0..count {
        let (number, after) = next_number(order, left);
        mode = push_number(calls, mode, number)?;
        left = after;
    }
    Ok(())
}

/// Appends the calls of a sample's chain, by the bytes of its frame and the flat frame that was read
/// of them in that order. There are none if it has no chain.
pub fn push_calls(
    calls: &mut Vec<Call>,
    order: Dynamic,
    bytes: &[u8],
    frame: &FlatFrame,
) -> Result<(), AllocError>
    ensures { (c : Configuration) (s : SampleValue) → IsFlat c (order_of order) bytes.now frame.now →
        sample_of c (order_of order) bytes.now ≡ Some s →
        OnOk result (calls.new.items ≡ calls.old.items ++ chains.calls_of s) }
{
    push_chain(calls, order, string(bytes, frame, 0))
}
