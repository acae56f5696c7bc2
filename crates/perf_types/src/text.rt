//! Byte strings as text.

ghost use Rattle.std.specs.Prelude.{◌≡◌, option_map};
ghost use Rattle.perf_types.specs.Text.{text_of};

// The same bytes as text, or `None` if they are not UTF-8.
pub(crate) fn text(bytes: &[u8]) -> Option<&str>
    ensures { option_map (λ text. text.now) result ≡ text_of bytes.now }
{
    str::from_utf8(bytes).ok()
}
