//! The name of an event as text.

ghost use Rattle.std.specs.Prelude.{◌≡◌, length, min};
ghost use Rattle.perf_sections.specs.Names as texts;
ghost use Rattle.perf_outlines.specs.FlatNames as names;

use crate::file_events::FlatEvent;
use perf_file::EventName;
use perf_outlines::event_name::{put_bytes, put_numbers, put_text};
use perf_sections::naming::name_or;

/// Writes the name of an event to `out`, as much of it as there is room for, and returns how many bytes
/// that are: in ASCII, as `perf_data events` prints it. `bytes` are those of the file in which its own
/// name was found. If it has none there, it is what perf prints for an event of the kernel's own, or
/// else the type and the config.
#[unsafe(no_mangle)]
pub extern "C" fn ped_event_name(event: &FlatEvent, bytes: &[u8], out: &mut [u8]) -> usize
    ensures text { out.new ≡
        names.over (texts.name_text (names.flat_name bytes.now event.now)) out.old }
    ensures count { result ≡
        min (length (texts.name_text (names.flat_name bytes.now event.now))) (length out.old) }
{
    match name_or(bytes, event.name, event.type_, event.event) {
        EventName::Described(name) => put_bytes(name, out),
        EventName::Known(text) => put_text(text, out),
        EventName::Numbers { type_, config } => put_numbers(type_, config, out),
    }
}
