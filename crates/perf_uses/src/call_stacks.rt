//! A visitor that folds call chains.

ghost use Rattle.std.specs.Prelude.{◌≡◌, Ok, None};
ghost use Rattle.perf_records.specs.Gives.{IsSample};

use perf_event_data::endian::Little;
use perf_event_data::parse::{ParseConfig, ParseResult};
use perf_event_data::{Partial, PartialVisitor, RecordMetadata, Sample, frames};
use std::alloc::{AllocError, Global};
use std::collections::BTreeMap;

// Numbers of a call chain from this one on are not addresses: they mark whose addresses follow, the
// kernel's or the program's (`PERF_CONTEXT_MAX`).
const CONTEXT_MAX: u64 = u64::MAX - 4094;

// The addresses of a call chain as one text, the outermost call first.
fn fold_chain(alloc: Global, chain: &[u64]) -> Result<String, AllocError> {
    let mut stack = String::new(alloc);
    for address in chain.iter().rev() {
        if *address < CONTEXT_MAX {
            push_address(&mut stack, *address)?;
        }
    }
    Ok(stack)
}

// Appends an address, after a semicolon if it is not the first.
fn push_address(stack: &mut String, address: u64) -> Result<(), AllocError> {
    if !stack.is_empty() {
        stack.push(';')?;
    }
    write!(stack, "{address:#x}")
}

// The call chain of a sample as one text, or `None` if it has none.
fn fold_sample(alloc: Global, sample: &Sample<'_>) -> Result<Option<String>, AllocError> {
    match sample.callchain() {
        Some(chain) => Ok(Some(fold_chain(alloc, chain)?)),
        None => Ok(None),
    }
}

/// Makes a text of the call chain of a sample, and `None` of another record.
#[derive(Copy, Clone)]
pub struct Folding {
    /// Where memory comes from.
    pub alloc: Global,
}

impl PartialVisitor for Folding {
    type Output = Result<Option<String>, AllocError>;

    // only a sample is folded
    ghost gives = { λ event _. IsSample event.value };

    // another record gives no call chain
    ghost left_out = { λ _ output. output ≡ Ok None };

    fn visit_unimplemented(self, _metadata: RecordMetadata) -> Self::Output {
        Ok(None)
    }

    fn visit_sample(self, sample: Sample<'_>, _metadata: RecordMetadata) -> Self::Output {
        let stack = fold_sample(self.alloc, &sample);
        drop(sample);
        stack
    }
}

/// How many samples each call chain has. A header that no whole frame follows is left out; the first
/// frame that cannot be parsed is the error.
pub fn call_stacks(
    alloc: Global,
    config: &ParseConfig<Little>,
    records: &[u8],
) -> ParseResult<BTreeMap<String, u64>> {
    let mut stacks = BTreeMap::new(alloc);
    for frame in frames(records, Little) {
        let Ok(frame) = frame else { continue };
        if let Some(stack) = frame.visit(alloc, config, Partial(Folding { alloc }))?? {
            let count = stacks.entry(stack)?.or_insert(0);
            *count = u64::saturating_add(*count, 1);
        }
    }
    Ok(stacks)
}
