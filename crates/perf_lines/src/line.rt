//! The parts of a line.

ghost use Rattle.std.specs.Prelude.{◌≡◌, ◌+◌, ◌≤◌, ◌++◌, [], ◌∷◌, decimal};
ghost use Rattle.perf_lines.specs.Fields.{with_spaces};
ghost use Rattle.perf_lines.specs.Text as lines;
ghost use Rattle.perf_text.specs.Strips.{strip_text, room_of};

pub mod file;

use perf_base::ErrorKind;
use perf_base::sys::perf_event_header;
use perf_text::strip::Strip;

/// Writes the numbers of a header before the text, each with a space before it.
#[inline]
pub fn put_header(strip: &mut Strip, header: &perf_event_header)
    requires { 63 ≤ room_of strip.old }
    ensures text { strip_text strip.new ≡ with_spaces (decimal header.now.type_
        ∷ decimal header.now.misc ∷ decimal header.now.size ∷ []) ++ strip_text strip.old }
    ensures room { room_of strip.old ≤ room_of strip.new + 63 }
{
    strip.put_number(u64::from(header.size));
    strip.put(" ");
    strip.put_number(u64::from(header.misc));
    strip.put(" ");
    strip.put_number(u64::from(header.type_));
    strip.put(" ");
}

/// The name of a kind of error.
pub fn kind_name(kind: ErrorKind) -> &'static str
    ensures { result.now ≡ lines.kind_name kind }
{
    match kind {
        ErrorKind::Eof => "Eof",
        ErrorKind::InvalidRecord => "InvalidRecord",
        ErrorKind::UnsupportedConfig => "UnsupportedConfig",
        ErrorKind::UnsupportedData => "UnsupportedData",
        ErrorKind::External => "External",
        ErrorKind::OutOfMemory => "OutOfMemory",
    }
}
