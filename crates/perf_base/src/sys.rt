//! Structures and constants of the kernel's `perf_event.h`, under their own names.

ghost use Rattle.std.specs.Prelude.{◌≡◌};
ghost use Rattle.perf_words.specs.Bits.{has_bit};
ghost use Rattle.perf_base.specs.Header.{zero_header};
ghost use Rattle.perf_base.specs.Attribute.{zero_attribute};

/// The first eight bytes of every record, `struct perf_event_header`.
#[derive(Copy, Clone, Debug)]
pub struct perf_event_header {
    /// What the record is: one of the `PERF_RECORD_*` numbers.
    pub type_: u32,
    /// More bits about this record, whose meaning depends on its type.
    pub misc: u16,
    /// The size of the record in bytes, including this header.
    pub size: u16,
}

/// Each field is 0.
impl Default for perf_event_header {
    ghost is_default = { λ header. header ≡ zero_header };

    fn default() -> perf_event_header {
        perf_event_header {
            type_: 0,
            misc: 0,
            size: 0,
        }
    }
}

/// What an event counts or samples, and how: `struct perf_event_attr`, as it was passed to
/// `perf_event_open(2)`.
///
/// For a union of the kernel, one of its names is used for all of them. A field beyond the
/// attribute's size is 0.
#[derive(Copy, Clone, Debug)]
pub struct perf_event_attr {
    /// The kind of event, `PERF_TYPE_*`.
    pub type_: u32,
    /// The size of this attribute in bytes.
    pub size: u32,
    /// Which event of that kind.
    pub config: u64,
    /// A sample is taken after this many events; or `sample_freq`, the desired samples per second.
    pub sample_period: u64,
    /// Which fields a sample has, `PERF_SAMPLE_*`.
    pub sample_type: u64,
    /// What a read of a counter returns, `PERF_FORMAT_*`.
    pub read_format: u64,
    /// Single bits, from `disabled` on, counted from the lowest.
    pub flags: u64,
    /// The reader is woken after this many events; or `wakeup_watermark`, after this many bytes.
    pub wakeup_events: u32,
    /// The kind of a breakpoint.
    pub bp_type: u32,
    /// More about which event; or the address of a breakpoint, `bp_addr`, and others.
    pub config1: u64,
    /// More about which event; or the length of a breakpoint, `bp_len`, and others.
    pub config2: u64,
    /// Which branches a branch stack has, `PERF_SAMPLE_BRANCH_*`.
    pub branch_sample_type: u64,
    /// Which user registers a sample has, one bit each.
    pub sample_regs_user: u64,
    /// The number of bytes of the user stack in a sample.
    pub sample_stack_user: u32,
    /// The clock of the timestamps, as numbered by `clock_gettime(2)`.
    pub clockid: i32,
    /// Which registers at the interrupt a sample has, one bit each.
    pub sample_regs_intr: u64,
    /// The reader is woken after this many bytes of AUX data.
    pub aux_watermark: u32,
    /// The maximal number of frames of a call chain.
    pub sample_max_stack: u16,
    /// The number of bytes of AUX data in a sample.
    pub aux_sample_size: u32,
    /// The data of a signal that the event sends.
    pub sig_data: u64,
    /// Still more about which event.
    pub config3: u64,
}

/// Each field is 0.
impl Default for perf_event_attr {
    ghost is_default = { λ attr. attr ≡ zero_attribute };

    fn default() -> perf_event_attr {
        perf_event_attr {
            type_: 0,
            size: 0,
            config: 0,
            sample_period: 0,
            sample_type: 0,
            read_format: 0,
            flags: 0,
            wakeup_events: 0,
            bp_type: 0,
            config1: 0,
            config2: 0,
            branch_sample_type: 0,
            sample_regs_user: 0,
            sample_stack_user: 0,
            clockid: 0,
            sample_regs_intr: 0,
            aux_watermark: 0,
            sample_max_stack: 0,
            aux_sample_size: 0,
            sig_data: 0,
            config3: 0,
        }
    }
}

impl perf_event_attr {
    /// Whether every record except SAMPLE ends with a sample id: bit 18 of `flags`.
    #[inline]
    pub fn sample_id_all(&self) -> bool
        ensures { result ≡ has_bit self.now.flags 18 }
    {
        (self.flags >> 18) % 2 == 1
    }
}

/// A file was mapped: an executable one, or with `mmap_data` any.
pub const PERF_RECORD_MMAP: u32 = 1;
/// Events were lost: an event's `id` and how many.
pub const PERF_RECORD_LOST: u32 = 2;
/// A task changed its name.
pub const PERF_RECORD_COMM: u32 = 3;
/// A task ended.
pub const PERF_RECORD_EXIT: u32 = 4;
/// The kernel began to throttle an event, because there were too many samples.
pub const PERF_RECORD_THROTTLE: u32 = 5;
/// The kernel takes samples again.
pub const PERF_RECORD_UNTHROTTLE: u32 = 6;
/// A task was created by `fork(2)` or `clone(2)`.
pub const PERF_RECORD_FORK: u32 = 7;
/// The value of a counter.
pub const PERF_RECORD_READ: u32 = 8;
/// A sample.
pub const PERF_RECORD_SAMPLE: u32 = 9;
/// A file was mapped: as [`PERF_RECORD_MMAP`], and which file it is.
pub const PERF_RECORD_MMAP2: u32 = 10;
/// There is new data in the AUX buffer.
pub const PERF_RECORD_AUX: u32 = 11;
/// Which task an instruction trace belongs to.
pub const PERF_RECORD_ITRACE_START: u32 = 12;
/// Samples were lost.
pub const PERF_RECORD_LOST_SAMPLES: u32 = 13;
/// A task was scheduled onto its CPU or off it.
pub const PERF_RECORD_SWITCH: u32 = 14;
/// To which task a CPU was handed, or from which.
pub const PERF_RECORD_SWITCH_CPU_WIDE: u32 = 15;
/// The namespaces of a task.
pub const PERF_RECORD_NAMESPACES: u32 = 16;
/// A symbol of the kernel was registered or unregistered.
pub const PERF_RECORD_KSYMBOL: u32 = 17;
/// A BPF program was loaded or unloaded.
pub const PERF_RECORD_BPF_EVENT: u32 = 18;
/// A control group: its id and path.
pub const PERF_RECORD_CGROUP: u32 = 19;
/// The kernel changed its own instructions.
pub const PERF_RECORD_TEXT_POKE: u32 = 20;
/// The hardware's id of an event whose data is in the AUX buffer.
pub const PERF_RECORD_AUX_OUTPUT_HW_ID: u32 = 21;

/// In `misc` of SWITCH and SWITCH_CPU_WIDE: the task left the CPU.
pub const PERF_RECORD_MISC_SWITCH_OUT: u16 = 1 << 13;
/// In `misc` of MMAP2: the file is identified by its build id and not by its inode.
pub const PERF_RECORD_MISC_MMAP_BUILD_ID: u16 = 1 << 14;
