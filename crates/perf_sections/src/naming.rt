//! The name of an event.

ghost use Rattle.std.specs.Prelude.{◌≡◌, Some, option_map};
ghost use Rattle.perf_sections.specs.NamePlaces as places;
ghost use Rattle.perf_sections.specs.Names as names;

use crate::features::part_in;
use crate::kernel_names::known_name;
use crate::section::Section;
use std::fmt;

/// The name of an event.
///
/// `{}` prints it as text. Of a described name each byte that is not printable ASCII, and each
/// backslash, is printed as `\x` and its two hexadecimal digits.
#[derive(Copy, Clone, Debug)]
pub enum EventName<'p> {
    /// What the file describes it by, which is what was passed to `perf record`: at least one byte.
    Described(&'p [u8]),
    /// What perf prints for an event of the kernel's own.
    Known(&'static str),
    /// It has no name. These are the numbers of its attribute.
    Numbers {
        /// The type, `PERF_TYPE_*`.
        type_: u32,
        /// The config.
        config: u64,
    },
}

// The name of an event that is not described.
fn name_by_numbers<'p>(ty: u32, config: u64) -> EventName<'p>
    ensures { names.name_view result ≡ names.name_by_numbers ty config }
{
    match known_name(ty, config) {
        Some(text) => EventName::Known(text),
        None => EventName::Numbers { type_: ty, config },
    }
}

// The bytes of a name at its place, if it was found.
fn bytes_of(bytes: &[u8], place: Section) -> Option<&[u8]>
    ensures { option_map (λ b. b.now) result ≡ places.name_at bytes.now place }
{
    if place.start == 0 {
        return None;
    }
    part_in(bytes, place)
}

/// The name of an event with these numbers: the one at a place of these bytes, or if that begins at 0,
/// has no bytes or is not there, the one by its numbers.
pub fn name_or(bytes: &[u8], place: Section, ty: u32, config: u64) -> EventName<'_>
    ensures { names.name_view result ≡ places.name_or bytes.now place ty config }
{
    match bytes_of(bytes, place) {
        Some(name) => {
            if name.is_empty() {
                name_by_numbers(ty, config)
            } else {
                EventName::Described(name)
            }
        }
        None => name_by_numbers(ty, config),
    }
}

// A byte of a name, as it is printed.
#[derive(Copy, Clone)]
struct Escaped(u8);

impl fmt::Display for Escaped {
    ghost output = { λ e. Some (names.escaped e.0) };

    fn fmt<W: fmt::Write>(&self, f: &mut fmt::Formatter<W>) -> fmt::Result {
        let byte = self.0;
        if 32 <= byte && byte <= 126 && byte != 92 {
            f.write_char(char::from(byte))
        } else {
            write!(f, "\\x{:x}{:x}", byte / 16, byte % 16)
        }
    }
}

/// Bytes of a file that are printed as text: each byte that is not printable ASCII, and each backslash,
/// as `\x` and its two hexadecimal digits.
#[derive(Copy, Clone, Debug)]
pub struct EscapedBytes<'p>(pub &'p [u8]);

impl fmt::Display for EscapedBytes<'_> {
    ghost output = { λ e. Some (names.name_text (names.described e.0.now)) };

    fn fmt<W: fmt::Write>(&self, f: &mut fmt::Formatter<W>) -> fmt::Result {
        for byte in self.0 {
            f.write(Escaped(*byte))?;
        }
        Ok(())
    }
}

impl fmt::Display for EventName<'_> {
    ghost output = { λ n. Some (names.name_text (names.name_view n)) };

    fn fmt<W: fmt::Write>(&self, f: &mut fmt::Formatter<W>) -> fmt::Result {
        match self {
            EventName::Described(bytes) => f.write(EscapedBytes(bytes)),
            EventName::Known(text) => f.write_str(text),
            EventName::Numbers { type_, config } => write!(f, "type {type_} config 0x{config:x}"),
        }
    }
}
