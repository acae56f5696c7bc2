//! The body of a SAMPLE, read in place, field by field and group by group.

ghost use Rattle.std.specs.Prelude.{◌≡◌, ◌≤◌, ◌==◌, true, false, Some, [], ◌∷◌, take, drop, ℕ};
ghost use Rattle.std.specs.Prelude.{option_map};
ghost use Rattle.std.specs.Int.RustNames.{bit_and};
ghost use Rattle.perf_base.specs.Configuration.{Configuration};
ghost use Rattle.perf_base.specs.Layout.{part, done, optional, w8, map_parts};
ghost use Rattle.perf_base.specs.Table.{present_if, slot};
ghost use Rattle.perf_flat.specs.Arrays.{no_span, filled, filled_spans};
ghost use Rattle.perf_flat.specs.BodyReads.{counter_read};
ghost use Rattle.perf_flat.specs.CursorReads.{ReadsParts, ReadsFor, WritesRecord, SameHead};
ghost use Rattle.perf_flat.specs.Flat.{StatesId};
ghost use Rattle.perf_flat.specs.SampleContents as made;
ghost use Rattle.perf_flat.specs.SampleReads as reads;
ghost use Rattle.perf_flat.specs.Samples as samples;
ghost use Rattle.perf_records.specs.Prelude.{configuration_of};
ghost use Rattle.perf_records.specs.Records.{sample_is};
ghost use Rattle.perf_sample_types.specs.Sample as sample;
ghost use Rattle.perf_sample_types.specs.SampleGetters as getters;
ghost use Rattle.perf_counters.specs.ReadFormat.{has_group};
ghost use Rattle.perf_counters.specs.ReadGroup.{read_group};
ghost use Rattle.perf_counters.specs.ReadValue.{read_value};
ghost use Rattle.perf_words.specs.SetBits.{sample_flags_bits, read_format_bits};

use crate::cursor::BodyCursor;
use crate::frame::{FlatFrame, NO_SPAN, SPANS, Span, low_u32, put_id, put_numbers, put_spans};
use bitflags::Flags;
use perf_base::{Endian, ParseConfig, Refusal};
use perf_sample_types::layout::{is_weighed, raw_padding, register_count};
use perf_sample_types::sample_id::SampleId;
use perf_words::{ReadFormat, SampleFlags};

// The counters that were read: without GROUP the one counter, with it where the entries are.
#[derive(Copy, Clone)]
pub(crate) struct Counters {
    pub(crate) time_enabled: Option<u64>,
    pub(crate) time_running: Option<u64>,
    pub(crate) count: u64,
    pub(crate) value: u64,
    pub(crate) id: Option<u64>,
    pub(crate) lost: Option<u64>,
    pub(crate) entries: Span,
}

// Branches: the hardware's index, and where they are.
#[derive(Copy, Clone)]
struct Branches {
    hw_index: Option<u64>,
    entries: Span,
}

// Registers: the task's ABI, and where they are.
#[derive(Copy, Clone)]
struct Registers {
    abi: u64,
    regs: Span,
}

// One more than the sum of all flags of a read format that are known.
const KNOWN: u64 = 1 << 5;

// No counters.
const NO_COUNTERS: Counters = Counters {
    time_enabled: None,
    time_running: None,
    count: 0,
    value: 0,
    id: None,
    lost: None,
    entries: NO_SPAN,
};

// When and where it happened.
#[derive(Copy, Clone)]
struct Moment {
    identifier: Option<u64>,
    ip: Option<u64>,
    task: Option<(u32, u32)>,
    time: Option<u64>,
    addr: Option<u64>,
}

// Which event it was.
#[derive(Copy, Clone)]
struct Event {
    id: Option<u64>,
    stream_id: Option<u64>,
    cpu: Option<u32>,
    period: Option<u64>,
}

// The counters that were read, and the call chain.
#[derive(Copy, Clone)]
struct Counts {
    values: Counters,
    call_chain: Span,
}

// The state of event, processor and task.
#[derive(Copy, Clone)]
struct State {
    raw: Span,
    branches: Branches,
    regs_user: Registers,
    stack_user: Span,
}

// What it cost.
#[derive(Copy, Clone)]
struct Costs {
    weight: Option<u64>,
    data_src: Option<u64>,
    transaction: Option<u64>,
    regs_intr: Registers,
}

// In which memory it happened.
#[derive(Copy, Clone)]
struct Memory {
    phys_addr: Option<u64>,
    cgroup: Option<u64>,
    data_page_size: Option<u64>,
    code_page_size: Option<u64>,
    aux: Span,
}

impl BodyCursor<'_> {
    // A number, if the read format has its flag.
    #[inline]
    fn format_number<E: Endian>(
        &mut self,
        order: &E,
        format: ReadFormat,
        flag: ReadFormat,
    ) -> Option<u64>
        ensures { ReadsParts (E.order order.now) (part (optional
            (bit_and (read_format_bits format) (read_format_bits flag) == read_format_bits flag)
            w8) done) result self.old self.new }
    {
        self.read_u64_if(order, format.contains(flag))
    }

    // One counter, of a format without GROUP.
    pub(crate) fn one_counter<E: Endian>(&mut self, order: &E, format: ReadFormat) -> Counters
        ensures reads { (c : Configuration) → read_format_bits format ≡ c.read_format →
            ReadsParts (E.order order.now) (read_value c) (counter_read result) self.old self.new }
        ensures count { result.count ≡ 1 }
        ensures entries { result.entries ≡ no_span }
    {
        self.require(!format.contains(ReadFormat::GROUP), Refusal::SingleRead);
        self.require(format.bits() < KNOWN, Refusal::ReadFormat);
        Counters {
            count: 1,
            value: self.read_u64(order),
            time_enabled: self.format_number(order, format, ReadFormat::TOTAL_TIME_ENABLED),
            time_running: self.format_number(order, format, ReadFormat::TOTAL_TIME_RUNNING),
            id: self.format_number(order, format, ReadFormat::ID),
            lost: self.format_number(order, format, ReadFormat::LOST),
            entries: NO_SPAN,
        }
    }

    // A group of counters.
    fn group<E: Endian>(&mut self, order: &E, format: ReadFormat) -> Counters
        ensures { (c : Configuration) → read_format_bits format ≡ c.read_format →
            has_group c.read_format ≡ true → ReadsFor (E.order order.now) (read_group c)
            (λ group. reads.IsCounters c.read_format (E.order order.now) self.old.bytes.now
            (Some (sample.group_is group)) result) self.old self.new }
    {
        self.require(format.bits() < KNOWN, Refusal::ReadFormat);
        let count = self.read_u64(order);
        let time_enabled = self.format_number(order, format, ReadFormat::TOTAL_TIME_ENABLED);
        let time_running = self.format_number(order, format, ReadFormat::TOTAL_TIME_RUNNING);
        let each = format.element_len() as u64;
        self.require(count.checked_mul(each).is_some(), Refusal::GroupLength);
        Counters {
            time_enabled,
            time_running,
            count,
            value: 0,
            id: None,
            lost: None,
            entries: self.pass_items(count, each),
        }
    }

    // The counters that were read: READ.
    fn counters<E: Endian>(&mut self, order: &E, flags: SampleFlags, format: ReadFormat) -> Counters
        ensures { (c : Configuration) → sample_flags_bits flags ≡ c.sample_type →
            read_format_bits format ≡ c.read_format →
            ReadsFor (E.order order.now)
            (slot (sample.field_under c (sample.at_flag_under 4 sample.values)))
            (λ v. reads.IsCounters c.read_format (E.order order.now) self.old.bytes.now v result)
            self.old self.new }
    {
        if !flags.contains(SampleFlags::READ) {
            return NO_COUNTERS;
        }
        if format.contains(ReadFormat::GROUP) {
            self.group(order, format)
        } else {
            self.one_counter(order, format)
        }
    }

    // The branches, and the hardware's index if the configuration has one: BRANCH_STACK.
    fn branches<E: Endian>(&mut self, order: &E, flags: SampleFlags, hw_index: bool) -> Branches
        ensures { (c : Configuration) → sample_flags_bits flags ≡ c.sample_type →
            hw_index ≡ c.branch_hw_index → ReadsFor (E.order order.now)
            (slot (sample.field_under c (sample.at_flag_under 11 sample.branch_stack)))
            (λ v. reads.IsBranches (E.order order.now) self.old.bytes.now v result)
            self.old self.new }
    {
        if flags.contains(SampleFlags::BRANCH_STACK) {
            let count = self.read_u64(order);
            let hw_index = self.read_u64_if(order, hw_index);
            Branches {
                hw_index,
                entries: self.pass_items(count, 3),
            }
        } else {
            Branches {
                hw_index: None,
                entries: NO_SPAN,
            }
        }
    }

    // The registers of a mask, if they are present.
    fn registers<E: Endian>(&mut self, order: &E, present: bool, mask: u64) -> Registers
        ensures { ReadsFor (E.order order.now)
            (slot (present_if present (sample.registers mask)))
            (λ v. reads.IsRegisters (E.order order.now) self.old.bytes.now v result)
            self.old self.new }
    {
        if present {
            let abi = self.read_u64(order);
            let regs = self.pass_items(register_count(mask, abi) as u64, 1);
            Registers { abi, regs }
        } else {
            Registers {
                abi: 0,
                regs: NO_SPAN,
            }
        }
    }

    // IDENTIFIER, IP, TID, TIME and ADDR.
    fn moment<E: Endian>(&mut self, order: &E, flags: SampleFlags) -> Moment
        ensures { (c : Configuration) → sample_flags_bits flags ≡ c.sample_type →
            reads.ReadsFields (E.order order.now)
            (sample.fields_under c (take 5 sample.moment_fields)) (reads.moment_values result)
            self.old self.new }
    {
        Moment {
            identifier: self.flagged(order, flags, SampleFlags::IDENTIFIER),
            ip: self.flagged(order, flags, SampleFlags::IP),
            task: self.task(order, flags),
            time: self.flagged(order, flags, SampleFlags::TIME),
            addr: self.flagged(order, flags, SampleFlags::ADDR),
        }
    }

    // ID, STREAM_ID, CPU and PERIOD.
    fn event<E: Endian>(&mut self, order: &E, flags: SampleFlags) -> Event
        ensures { (c : Configuration) → sample_flags_bits flags ≡ c.sample_type →
            reads.ReadsFields (E.order order.now)
            (sample.fields_under c (drop 5 sample.moment_fields)) (reads.event_values result)
            self.old self.new }
    {
        Event {
            id: self.flagged(order, flags, SampleFlags::ID),
            stream_id: self.flagged(order, flags, SampleFlags::STREAM_ID),
            cpu: self.processor(order, flags),
            period: self.flagged(order, flags, SampleFlags::PERIOD),
        }
    }

    // READ and CALLCHAIN.
    fn counts<E: Endian>(&mut self, order: &E, flags: SampleFlags, format: ReadFormat) -> Counts
        ensures { (c : Configuration) → sample_flags_bits flags ≡ c.sample_type →
            read_format_bits format ≡ c.read_format →
            reads.ReadsCounts c (E.order order.now) result self.old self.new }
    {
        Counts {
            values: self.counters(order, flags, format),
            call_chain: self.call_chain(order, flags),
        }
    }

    // RAW, BRANCH_STACK, REGS_USER and STACK_USER.
    fn state<E: Endian>(
        &mut self,
        order: &E,
        flags: SampleFlags,
        hw_index: bool,
        mask: u64,
    ) -> State
        ensures { (c : Configuration) → sample_flags_bits flags ≡ c.sample_type →
            hw_index ≡ c.branch_hw_index → mask ≡ c.regs_user →
            reads.ReadsState c (E.order order.now) result self.old self.new }
    {
        let user = flags.contains(SampleFlags::REGS_USER);
        State {
            raw: self.raw(order, flags),
            branches: self.branches(order, flags, hw_index),
            regs_user: self.registers(order, user, mask),
            stack_user: self.stack(order, flags),
        }
    }

    // WEIGHT or WEIGHT_STRUCT, DATA_SRC, TRANSACTION and REGS_INTR.
    fn costs<E: Endian>(&mut self, order: &E, flags: SampleFlags, mask: u64) -> Costs
        ensures { (c : Configuration) → sample_flags_bits flags ≡ c.sample_type →
            mask ≡ c.regs_intr →
            reads.ReadsCosts c (E.order order.now) result self.old self.new }
    {
        let weighed = is_weighed(flags);
        let interrupted = flags.contains(SampleFlags::REGS_INTR);
        Costs {
            weight: self.number_if(order, weighed),
            data_src: self.flagged(order, flags, SampleFlags::DATA_SRC),
            transaction: self.flagged(order, flags, SampleFlags::TRANSACTION),
            regs_intr: self.registers(order, interrupted, mask),
        }
    }

    // PHYS_ADDR, CGROUP, DATA_PAGE_SIZE, CODE_PAGE_SIZE and AUX.
    fn memory<E: Endian>(&mut self, order: &E, flags: SampleFlags) -> Memory
        ensures { (c : Configuration) → sample_flags_bits flags ≡ c.sample_type →
            reads.ReadsMemory c (E.order order.now) result self.old self.new }
    {
        Memory {
            phys_addr: self.flagged(order, flags, SampleFlags::PHYS_ADDR),
            cgroup: self.flagged(order, flags, SampleFlags::CGROUP),
            data_page_size: self.flagged(order, flags, SampleFlags::DATA_PAGE_SIZE),
            code_page_size: self.flagged(order, flags, SampleFlags::CODE_PAGE_SIZE),
            aux: self.aux(order, flags),
        }
    }

    // A number that is a field, if it is present.
    #[inline]
    fn number_if<E: Endian>(&mut self, order: &E, present: bool) -> Option<u64>
        ensures { ReadsParts (E.order order.now) (slot (present_if present sample.plain_field))
            (option_map sample.number_is result) self.old self.new }
    {
        if present {
            Some(self.read_u64(order))
        } else {
            None
        }
    }

    // A number that is a field, if the sample type has its flag.
    #[inline]
    fn flagged<E: Endian>(
        &mut self,
        order: &E,
        flags: SampleFlags,
        flag: SampleFlags,
    ) -> Option<u64>
        ensures { ReadsParts (E.order order.now) (slot (present_if
            (bit_and (sample_flags_bits flags) (sample_flags_bits flag) == sample_flags_bits flag)
            sample.plain_field)) (option_map sample.number_is result) self.old self.new }
    {
        self.number_if(order, flags.contains(flag))
    }

    // A process and its thread: TID.
    #[inline]
    fn task<E: Endian>(&mut self, order: &E, flags: SampleFlags) -> Option<(u32, u32)>
        ensures { (c : Configuration) → sample_flags_bits flags ≡ c.sample_type →
            reads.ReadsSlot c (E.order order.now) (sample.at_flag 1 sample.task)
            (option_map reads.task_of result) self.old self.new }
    {
        if flags.contains(SampleFlags::TID) {
            let pid = self.read_u32(order);
            Some((pid, self.read_u32(order)))
        } else {
            None
        }
    }

    // A processor: CPU.
    #[inline]
    fn processor<E: Endian>(&mut self, order: &E, flags: SampleFlags) -> Option<u32>
        ensures { (c : Configuration) → sample_flags_bits flags ≡ c.sample_type →
            reads.ReadsSlot c (E.order order.now) (sample.at_flag 7 sample.cpu)
            (option_map sample.number_is result) self.old self.new }
    {
        if flags.contains(SampleFlags::CPU) {
            let cpu = self.read_u32(order);
            self.pass(4);
            Some(cpu)
        } else {
            None
        }
    }

    // The addresses of a call chain: CALLCHAIN.
    fn call_chain<E: Endian>(&mut self, order: &E, flags: SampleFlags) -> Span
        ensures { (c : Configuration) → sample_flags_bits flags ≡ c.sample_type →
            reads.ReadsSlotFor c (E.order order.now) (sample.at_flag 5 sample.call_chain)
            (λ frame v. samples.HasList (E.order order.now) frame result (getters.numbers_in v))
            self.old self.new }
    {
        if flags.contains(SampleFlags::CALLCHAIN) {
            let count = self.read_u64(order);
            self.pass_items(count, 1)
        } else {
            NO_SPAN
        }
    }

    // Raw bytes, without those that pad them: RAW.
    fn raw<E: Endian>(&mut self, order: &E, flags: SampleFlags) -> Span
        ensures { (c : Configuration) → sample_flags_bits flags ≡ c.sample_type →
            reads.ReadsSlotFor c (E.order order.now) (sample.at_flag 10 sample.raw)
            (λ frame v. samples.HasString frame result (getters.bytes_of_field v)) self.old self.new }
    {
        if flags.contains(SampleFlags::RAW) {
            let len = self.read_u32(order) as usize;
            let bytes = self.pass(len as u64);
            self.pass(raw_padding(len) as u64);
            bytes
        } else {
            NO_SPAN
        }
    }

    // The bytes of a task's stack that the kernel used: STACK_USER.
    fn stack<E: Endian>(&mut self, order: &E, flags: SampleFlags) -> Span
        ensures { (c : Configuration) → sample_flags_bits flags ≡ c.sample_type →
            reads.ReadsSlotFor c (E.order order.now) (sample.at_flag 13 sample.stack)
            (λ frame v. samples.HasString frame result (getters.bytes_of_field v)) self.old self.new }
    {
        if flags.contains(SampleFlags::STACK_USER) {
            let size = self.read_u64(order);
            let bytes = self.pass(size);
            let used = self.read_u64_if(order, size > 0).unwrap_or(0);
            self.require(used <= size, Refusal::UsedStack);
            Span {
                at: bytes.at,
                len: low_u32(used as usize),
            }
        } else {
            NO_SPAN
        }
    }

    // Bytes of the AUX area: AUX.
    fn aux<E: Endian>(&mut self, order: &E, flags: SampleFlags) -> Span
        ensures { (c : Configuration) → sample_flags_bits flags ≡ c.sample_type →
            reads.ReadsSlotFor c (E.order order.now) (sample.at_flag 20 sample.sized_bytes)
            (λ frame v. samples.HasString frame result (getters.bytes_of_field v)) self.old self.new }
    {
        if flags.contains(SampleFlags::AUX) {
            let size = self.read_u64(order);
            self.pass(size)
        } else {
            NO_SPAN
        }
    }

    // A number of eight bytes, if it is present.
    #[inline]
    fn read_u64_if<E: Endian>(&mut self, order: &E, present: bool) -> Option<u64>
        ensures { ReadsParts (E.order order.now) (part (optional present w8) done) result
            self.old self.new }
    {
        if present {
            Some(self.read_u64(order))
        } else {
            None
        }
    }
}

// The groups of a sample's fields.
#[derive(Copy, Clone)]
struct Sample {
    moment: Moment,
    event: Event,
    counts: Counts,
    state: State,
    costs: Costs,
    memory: Memory,
}

impl Sample {
    // Its task and event.
    fn sample_id(&self) -> SampleId
        ensures { result ≡ made.made_ids self.now }
    {
        let (pid, tid) = match self.moment.task {
            Some((pid, tid)) => (Some(pid), Some(tid)),
            None => (None, None),
        };
        let id = match self.event.id {
            Some(id) => Some(id),
            None => self.moment.identifier,
        };
        SampleId::from_parts(
            pid,
            tid,
            self.moment.time,
            id,
            self.event.stream_id,
            self.event.cpu,
        )
    }

    // Writes its contents, and its task and event.
    fn put(&self, frame: &mut FlatFrame)
        ensures numbers { frame.new.numbers ≡ filled (made.made_numbers self.now) }
        ensures spans { frame.new.spans ≡ filled_spans (made.made_spans self.now) }
        ensures ids { StatesId (made.made_ids self.now) frame.new }
        ensures head { SameHead frame.old frame.new }
    {
        let (counters, state, costs) = (self.counts.values, self.state, self.costs);
        let numbers = [
            self.moment.ip.unwrap_or(0),
            self.moment.addr.unwrap_or(0),
            self.event.period.unwrap_or(0),
            costs.weight.unwrap_or(0),
            costs.data_src.unwrap_or(0),
            costs.transaction.unwrap_or(0),
            self.memory.phys_addr.unwrap_or(0),
            self.memory.cgroup.unwrap_or(0),
            self.memory.data_page_size.unwrap_or(0),
            self.memory.code_page_size.unwrap_or(0),
            state.branches.hw_index.unwrap_or(0),
            state.regs_user.abi,
            costs.regs_intr.abi,
            counters.time_enabled.unwrap_or(0),
            counters.time_running.unwrap_or(0),
            counters.count,
            counters.value,
            counters.id.unwrap_or(0),
            counters.lost.unwrap_or(0),
        ];
        put_id(&self.sample_id(), frame);
        put_numbers(&numbers, &mut frame.numbers);
        put_spans(&self.spans(), &mut frame.spans);
    }

    // Where its lists are.
    fn spans(&self) -> [Span; SPANS]
        ensures { result ≡ made.made_spans self.now }
    {
        [
            self.counts.call_chain,
            self.state.branches.entries,
            self.counts.values.entries,
            self.state.regs_user.regs,
            self.costs.regs_intr.regs,
            self.state.raw,
            self.state.stack_user,
            self.memory.aux,
        ]
    }
}

// Writes the contents of a SAMPLE, and returns the first refusal.
pub(crate) fn put_sample<E: Endian>(
    config: &ParseConfig<E>,
    order: &E,
    body: &[u8],
    frame: &mut FlatFrame,
) -> Option<Refusal>
    ensures { WritesRecord (configuration_of config.now) (E.order order.now)
        (map_parts sample_is (sample.sample (configuration_of config.now))) body.now
        frame.old result frame.new }
{
    let flags = config.sample_type();
    let hw_index = config.branch_hw_index();
    let mut cursor = BodyCursor::new(body);
    let moment = cursor.moment(order, flags);
    let event = cursor.event(order, flags);
    let counts = cursor.counts(order, flags, config.read_format());
    // Most samples that are refused end here, in a list with more items than there are bytes.
    if let Some(refusal) = cursor.refusal() {
        return Some(refusal);
    }
    let sample = Sample {
        moment,
        event,
        counts,
        state: cursor.state(order, flags, hw_index, config.regs_user()),
        costs: cursor.costs(order, flags, config.regs_intr()),
        memory: cursor.memory(order, flags),
    };
    match cursor.refusal() {
        Some(refusal) => Some(refusal),
        None => {
            sample.put(frame);
            None
        }
    }
}
