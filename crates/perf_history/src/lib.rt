//! Who a thread is, and what is mapped where, at each moment of a recording.
#![tactic(auto)]

mod changes;
mod forests;
mod histories;
mod memories;
mod names;
mod places;
mod spaces;

pub use changes::{Change, Comm, Fork, Identity, Inode, Map, Mode, Symbol};
pub use histories::History;
pub use memories::Memory;
pub use names::Name;
pub use places::{File, Place, keeps_address};
