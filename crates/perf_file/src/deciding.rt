//! A law of the events of frames.

ghost use Rattle.perf_file.specs.DecidingIds.{DecidingIdIsRead};

/// The id that determines the event of a frame is the one that a full reading of the frame under
/// that event finds: its IDENTIFIER, or else its ID. It holds of each frame that is long enough for
/// its sample id, in a file of several events that opens. The law is the contract of this call; at
/// run time the call does nothing.
pub fn deciding_id_law()
    ensures { DecidingIdIsRead }
{}
