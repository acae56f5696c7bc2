//! The numbers of one counter in a group read.

ghost use Rattle.std.specs.Prelude.{◌≡◌, length};
ghost use Rattle.perf_counters.specs.GroupEntry.{entry_value, entry_id, entry_lost};
ghost use Rattle.perf_counters.specs.GroupEntry.{entry_of, block_len};

/// What a read of a group contains for one counter: its value, and the numbers selected by the
/// group's read format.
#[derive(Copy, Clone, Debug)]
pub struct GroupEntry {
    value: u64,
    id: Option<u64>,
    lost: Option<u64>,
}

// How many numbers of a group belong to each counter: its value, its id and its lost samples.
#[inline]
pub(crate) fn block_len(with_id: bool, with_lost: bool) -> usize
    ensures { result ≡ block_len with_id with_lost }
{
    match (with_id, with_lost) {
        (false, false) => 1,
        (true, true) => 3,
        _ => 2,
    }
}

impl GroupEntry {
    // The entry in a counter's numbers.
    #[inline]
    pub(crate) fn of_block(block: &[u64], with_id: bool, with_lost: bool) -> GroupEntry
        requires { length block.now ≡ block_len with_id with_lost }
        ensures { result ≡ entry_of with_id with_lost block.now }
    {
        let after_id = if with_id { 2 } else { 1 };
        GroupEntry {
            value: block[0],
            id: if with_id { Some(block[1]) } else { None },
            lost: if with_lost {
                Some(block[after_id])
            } else {
                None
            },
        }
    }

    /// The counter's value.
    #[inline]
    pub fn value(&self) -> u64
        ensures { result ≡ entry_value self.now }
    {
        self.value
    }

    /// The kernel's id of the event, if the read format has `PERF_FORMAT_ID`.
    #[inline]
    pub fn id(&self) -> Option<u64>
        ensures { result ≡ entry_id self.now }
    {
        self.id
    }

    /// How many samples of the event were lost, if the read format has `PERF_FORMAT_LOST`.
    #[inline]
    pub fn lost(&self) -> Option<u64>
        ensures { result ≡ entry_lost self.now }
    {
        self.lost
    }
}
