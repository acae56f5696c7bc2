//! What is known of a file before its events are read into memory.

ghost use Rattle.std.specs.Prelude.{◌≡◌, ◌≤◌, Ok, IfOk, OnOk, length};
ghost use Rattle.perf_sections.specs.Heads.{IsGoodHead};
ghost use Rattle.perf_sections.specs.IdSections.{entry_count};
ghost use Rattle.perf_sections.specs.Opened as opens;
ghost use Rattle.perf_outlines.specs.Outlines as outlines;

use perf_file::attributes::attribute_at;
use perf_file::event_list::checked_head;
use perf_sections::error::OpenError;
use perf_sections::head::Head;
use perf_sections::id_sections::id_section_at;
use std::alloc::Global;

/// What is known of a file before its events are read into memory.
#[derive(Copy, Clone, Debug)]
pub struct Outline {
    /// Its head.
    pub head: Head,
    /// How many events it has.
    pub events: u64,
    /// How many ids they have together: at most one for eight bytes of the file.
    pub ids: u64,
}

// Refuses the first attribute that cannot be read.
fn check_attributes(alloc: Global, bytes: &[u8], head: Head) -> Result<(), OpenError>
    requires { IsGoodHead bytes.now head }
    ensures { result ≡ outlines.checked_attributes bytes.now head }
{
    let count = head.attributes.size / head.entry_size;
    for index in 0..count {
        attribute_at(alloc, bytes, head, index)?;
    }
    Ok(())
}

// How many ids all events have, at most one for eight bytes of the file. Refuses the first event
// whose ids are not whole, or end beyond the file.
fn count_ids(bytes: &[u8], head: Head) -> Result<u64, OpenError>
    requires { IsGoodHead bytes.now head }
    ensures { result ≡ outlines.counted_ids bytes.now head }
{
    let most = bytes.len() as u64 / 8;
    let mut total = 0;
    let count = head.attributes.size / head.entry_size;
    for index in 0..count {
        let ids = id_section_at(bytes, head, index)?;
        total = (total + ids.size / 8).min(most);
    }
    Ok(total)
}

/// How many events and ids a file has, or its first refusal before two parts of it are compared. No
/// memory is needed.
pub fn outline_of(alloc: Global, bytes: &[u8]) -> Result<Outline, OpenError>
    ensures value { result ≡ outlines.outline bytes.now }
    ensures good { IfOk result (λ o. IsGoodHead bytes.now o.head) }
    ensures whole { OnOk result (104 ≤ length bytes.now) }
    ensures head { IfOk result (λ o. opens.checked_head bytes.now ≡ Ok o.head) }
    ensures attributes { IfOk result (λ o. outlines.checked_attributes bytes.now o.head ≡ Ok tt) }
    ensures events { IfOk result (λ o. o.events ≡ entry_count o.head) }
    ensures ids { IfOk result (λ o. outlines.counted_ids bytes.now o.head ≡ Ok o.ids) }
{
    let head = checked_head(bytes)?;
    check_attributes(alloc, bytes, head)?;
    let ids = count_ids(bytes, head)?;
    Ok(Outline {
        head,
        events: head.attributes.size / head.entry_size,
        ids,
    })
}
