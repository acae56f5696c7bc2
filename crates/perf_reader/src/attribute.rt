//! How the attribute of an event is read. Its fields are read in groups, one after another.
#![tactic(auto, using(crate::proofs::Calls::chain))]

ghost use Rattle.std.specs.Prelude.{◌≡◌, drop, IfOk, if◌then◌else◌};
ghost use Rattle.perf_base.specs.Attribute.{attribute, is_attribute_size};
ghost use Rattle.perf_reader.specs.AttributeGroups.{attribute_of, aux_fields, event_fields, front};
ghost use Rattle.perf_reader.specs.AttributeGroups.{last_fields, register_fields, wakeup_fields};
ghost use Rattle.perf_reader.specs.Prelude.{Call, Reads, NeedsNoMemory, kinds};

use crate::read::{HasTransition, ReadFrom};
use crate::reader::Reader;
use perf_base::sys::perf_event_attr;
use perf_base::{Endian, ReadResult, Refusal};
use perf_buffers::input::Input;

// The largest attribute whose fields are known, `PERF_ATTR_SIZE_VER8`.
const KNOWN_SIZE: u32 = 136;

#[derive(Copy, Clone)]
struct Front {
    type_: u32,
    size: u32,
}

// What is counted or sampled.
#[derive(Copy, Clone)]
struct EventFields {
    config: u64,
    sample_period: u64,
    sample_type: u64,
    read_format: u64,
    flags: u64,
}

// What follows up to `PERF_ATTR_SIZE_VER2`.
#[derive(Copy, Clone)]
struct WakeupFields {
    wakeup_events: u32,
    bp_type: u32,
    config1: u64,
    config2: u64,
    branch_sample_type: u64,
}

// The fields that came next, up to `PERF_ATTR_SIZE_VER4`.
#[derive(Copy, Clone)]
struct RegisterFields {
    sample_regs_user: u64,
    sample_stack_user: u32,
    clockid: i32,
    sample_regs_intr: u64,
}

// The fields that came next, up to `PERF_ATTR_SIZE_VER6`.
#[derive(Copy, Clone)]
struct AuxFields {
    aux_watermark: u32,
    sample_max_stack: u16,
    aux_sample_size: u32,
}

// The fields that came last, up to `PERF_ATTR_SIZE_VER8`.
#[derive(Copy, Clone)]
struct LastFields {
    sig_data: u64,
    config3: u64,
}

fn is_attribute_size(size: u32) -> bool
    ensures { result ≡ is_attribute_size size }
{
    matches!(size, 64 | 72 | 80 | 96 | 104 | 112 | 120 | 128 | 136) || size > KNOWN_SIZE
}

// The type, and the size of the whole attribute.
fn read_front<'p, I: Input<'p>, E: Endian>(reader: &mut Reader<I, E>) -> ReadResult<Front>
    ensures memory { NeedsNoMemory (kinds result) }
    ensures call { Call I.source E.order (Reads (λ _. front) (λ f. f))
        reader.old (kinds result) reader.new }
{
    let type_ = reader.read_u32()?;
    let size = reader.read_u32()?;
    if !is_attribute_size(size) {
        return Err(Refusal::AttributeSize);
    }
    Ok(Front { type_, size })
}

fn read_event<'p, I: Input<'p>, E: Endian>(reader: &mut Reader<I, E>) -> ReadResult<EventFields>
    ensures memory { NeedsNoMemory (kinds result) }
    ensures call { Call I.source E.order (Reads (λ _. event_fields) (λ f. f))
        reader.old (kinds result) reader.new }
{
    Ok(EventFields {
        config: reader.read_u64()?,
        sample_period: reader.read_u64()?,
        sample_type: reader.read_u64()?,
        read_format: reader.read_u64()?,
        flags: reader.read_u64()?,
    })
}

fn read_wakeup<'p, I: Input<'p>, E: Endian>(
    reader: &mut Reader<I, E>,
    size: u32,
) -> ReadResult<WakeupFields>
    ensures memory { NeedsNoMemory (kinds result) }
    ensures call { Call I.source E.order (Reads (λ _. wakeup_fields size) (λ f. f))
        reader.old (kinds result) reader.new }
{
    Ok(WakeupFields {
        wakeup_events: reader.read_u32()?,
        bp_type: reader.read_u32()?,
        config1: reader.read_u64()?,
        config2: reader.read_u64_if(72 <= size)?.unwrap_or(0),
        branch_sample_type: reader.read_u64_if(80 <= size)?.unwrap_or(0),
    })
}

fn read_registers<'p, I: Input<'p>, E: Endian>(
    reader: &mut Reader<I, E>,
    size: u32,
) -> ReadResult<RegisterFields>
    ensures memory { NeedsNoMemory (kinds result) }
    ensures call { Call I.source E.order (Reads (λ _. register_fields size) (λ f. f))
        reader.old (kinds result) reader.new }
{
    Ok(RegisterFields {
        sample_regs_user: reader.read_u64_if(96 <= size)?.unwrap_or(0),
        sample_stack_user: reader.read_u32_if(96 <= size)?.unwrap_or(0),
        clockid: reader.read_u32_if(96 <= size)?.unwrap_or(0).cast_signed(),
        sample_regs_intr: reader.read_u64_if(104 <= size)?.unwrap_or(0),
    })
}

// How many bytes of padding there are, if the size reaches them.
fn len_to_skip(is_reached: bool, len: usize) -> usize
    ensures { result ≡ (if is_reached then len else 0) }
{
    if is_reached { len } else { 0 }
}

fn read_aux<'p, I: Input<'p>, E: Endian>(
    reader: &mut Reader<I, E>,
    size: u32,
) -> ReadResult<AuxFields>
    ensures memory { NeedsNoMemory (kinds result) }
    ensures call { Call I.source E.order (Reads (λ _. aux_fields size) (λ f. f))
        reader.old (kinds result) reader.new }
{
    let aux_watermark = reader.read_u32_if(112 <= size)?;
    let sample_max_stack = reader.read_u16_if(112 <= size)?;
    reader.skip(len_to_skip(112 <= size, 2))?;
    let aux_sample_size = reader.read_u32_if(120 <= size)?;
    reader.skip(len_to_skip(120 <= size, 4))?;
    Ok(AuxFields {
        aux_watermark: aux_watermark.unwrap_or(0),
        sample_max_stack: sample_max_stack.unwrap_or(0),
        aux_sample_size: aux_sample_size.unwrap_or(0),
    })
}

fn read_last<'p, I: Input<'p>, E: Endian>(
    reader: &mut Reader<I, E>,
    size: u32,
) -> ReadResult<LastFields>
    ensures memory { NeedsNoMemory (kinds result) }
    ensures call { Call I.source E.order (Reads (λ _. last_fields size) (λ f. f))
        reader.old (kinds result) reader.new }
{
    Ok(LastFields {
        sig_data: reader.read_u64_if(128 <= size)?.unwrap_or(0),
        config3: reader.read_u64_if(136 <= size)?.unwrap_or(0),
    })
}

fn assemble(
    front: Front,
    event: EventFields,
    wakeup: WakeupFields,
    registers: RegisterFields,
    aux: AuxFields,
    last: LastFields,
) -> perf_event_attr
    ensures { result ≡ attribute_of front event wakeup registers aux last }
{
    perf_event_attr {
        type_: front.type_,
        size: front.size,
        config: event.config,
        sample_period: event.sample_period,
        sample_type: event.sample_type,
        read_format: event.read_format,
        flags: event.flags,
        wakeup_events: wakeup.wakeup_events,
        bp_type: wakeup.bp_type,
        config1: wakeup.config1,
        config2: wakeup.config2,
        branch_sample_type: wakeup.branch_sample_type,
        sample_regs_user: registers.sample_regs_user,
        sample_stack_user: registers.sample_stack_user,
        clockid: registers.clockid,
        sample_regs_intr: registers.sample_regs_intr,
        aux_watermark: aux.aux_watermark,
        sample_max_stack: aux.sample_max_stack,
        aux_sample_size: aux.aux_sample_size,
        sig_data: last.sig_data,
        config3: last.config3,
    }
}

// The groups, and the bytes after them.
#[tactic(auto)]
fn read_groups<'p, I: Input<'p>, E: Endian>(
    reader: &mut Reader<I, E>,
) -> ReadResult<perf_event_attr>
    ensures memory { NeedsNoMemory (kinds result) }
    ensures call { Call I.source E.order (Reads (λ _. attribute) (λ a. a))
        reader.old (kinds result) reader.new }
{
    let front = read_front(reader)?;
    let event = read_event(reader)?;
    let wakeup = read_wakeup(reader, front.size)?;
    let registers = read_registers(reader, front.size)?;
    let aux = read_aux(reader, front.size)?;
    let last = read_last(reader, front.size)?;
    reader.read_zero_tail(front.size.saturating_sub(KNOWN_SIZE) as usize)?;
    Ok(assemble(front, event, wakeup, registers, aux, last))
}

impl HasTransition for perf_event_attr {
    ghost transition = { λ old outcome new. Reads (λ _. attribute) (λ a. a) old outcome new
        × NeedsNoMemory outcome × IfOk outcome (λ a. new.source.left ≡ drop a.size old.source.left) };
}

/// The nine sizes that the kernel gave its attributes are read, and larger ones whose bytes after
/// the known fields are zero. An attribute takes as many bytes as its size specifies, and no
/// memory. Any other size is refused by [`Refusal::AttributeSize`], with eight bytes taken; a byte
/// after the known fields that is not zero is refused by [`Refusal::AttributeTail`], with the whole
/// attribute taken.
impl<'p, I: Input<'p>> ReadFrom<'p, I> for perf_event_attr {
    fn read<E: Endian>(reader: &mut Reader<I, E>) -> ReadResult<Self> {
        match read_groups(reader) {
            Ok(attribute) => Ok(attribute),
            Err(refusal) => Err(refusal),
        }
    }
}
