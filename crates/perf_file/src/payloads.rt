//! Whether payloads are whole.

ghost use Rattle.std.specs.Prelude.{◌≡◌};
ghost use Rattle.perf_file.specs.Payloads as payloads;
ghost use Rattle.perf_file.specs.Pieces.{piece_of};
ghost use Rattle.perf_file.specs.Views.{view};

use crate::listing::{FileFrame, payload_length};
use crate::opening::Recording;

impl Recording<'_> {
    /// Whether the payload that a frame of this file announces is all there: the file may end before
    /// it does.
    pub fn has_payload(&self, found: &FileFrame<'_>) -> bool
        ensures { result ≡ payloads.has_payload (view self.now) (piece_of found.now) }
    {
        payload_length(self.order, &found.frame) <= found.payload.len() as u64
    }
}
