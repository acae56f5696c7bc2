//! Branch stacks. A claimed count of branches is never trusted for allocation.

ghost use Rattle.std.specs.Prelude.{◌≡◌, ◌*◌, [], Bool, true, false, length, Ok, Err};
ghost use Rattle.std.specs.Prelude.{IfOk, IfErr};
ghost use Rattle.perf_base.specs.Layout.{words_of};
ghost use Rattle.perf_buffers.specs.Room.{falls_short};
ghost use Rattle.perf_reader.specs.Prelude.{input_of, refusal_kind};
ghost use Rattle.perf_sample_types.specs.Branches.{branch_numbers, branch_of};
ghost use Rattle.perf_counters.specs.Prelude.{Call, ReadsOne, NeedsNoMemory, flat_map, kinds, words};

use perf_base::{Endian, ReadCounter, ReadResult, Refusal};
use perf_buffers::input::Input;
use perf_reader::reader::Reader;
use perf_words::BranchEntry;

// How many numbers a branch has, and how many bytes.
const NUMBERS: usize = 3;

const SIZE: usize = 24;

// The branch in these bytes.
#[inline(always)]
fn branch_in<E: Endian>(order: &E, bytes: &[u8; SIZE]) -> BranchEntry
    ensures { result ≡ branch_of (E.order order.now) bytes.now }
{
    let (words, _) = bytes.as_chunks::<8>();
    let from = order.convert_u64(words[0]);
    let to = order.convert_u64(words[1]);
    let word = order.convert_u64(words[2]);
    BranchEntry::from_words(from, to, word)
}

// Puts the branches in some bytes into their places.
#[inline]
fn convert<E: Endian>(order: &E, bytes: &[u8], branches: &mut [BranchEntry])
    requires { length bytes.now ≡ 24 * length branches.old }
    ensures { flat_map branch_numbers branches.new
        ≡ words_of (E.order order.now) (3 * length branches.old) bytes.now }
{
    let (chunks, _) = bytes.as_chunks::<SIZE>();
    for i in 0..branches.len() {
        branches[i] = branch_in(order, &chunks[i]);
    }
}

// Fills a list with the next branches, if the input shows all of their bytes; otherwise nothing is
// read. There is at least one of them.
#[inline]
fn read_shown<'p, I: Input<'p>, E: Endian>(
    reader: &mut Reader<I, E>,
    branches: &mut [BranchEntry],
) -> ReadResult<bool>
    ensures shown { result ≡ Ok true → Call I.source E.order
        (ReadsOne (words (3 * length branches.old)) (λ (_ : Bool). flat_map branch_numbers branches.new))
        reader.old (Ok true) reader.new }
    ensures nothing { result ≡ Ok false → reader.new ≡ reader.old }
    ensures refused { IfErr result (λ e. Call I.source E.order
        (ReadsOne (words (3 * length branches.old)) (λ (_ : Bool). flat_map branch_numbers branches.new))
        reader.old (Err (refusal_kind e)) reader.new) }
{
    let front = reader.input().shown_bytes();
    let count = branches.len();
    if front.len() / SIZE < count {
        return Ok(false);
    }
    let len = SIZE * count;
    convert(reader.endian(), &front[..len], branches);
    reader.pass(len, ReadCounter::of((NUMBERS * count) as u64))?;
    Ok(true)
}

// Reads n branches, one by one. The list is empty.
#[inline(never)]
fn append_branches<'p, I: Input<'p>, E: Endian>(
    reader: &mut Reader<I, E>,
    mut entries: Vec<BranchEntry>,
    count: usize,
) -> ReadResult<Vec<BranchEntry>>
    requires { entries.items ≡ [] }
    ensures { Call I.source E.order
        (ReadsOne (words (3 * count)) (λ v. flat_map branch_numbers v.items))
        reader.old (kinds result) reader.new }
{
    for _ in 0..count {
        let mut numbers = [0; NUMBERS];
        reader.read_block(&mut numbers)?;
        let [from, to, word] = numbers;
        if entries
            .push(BranchEntry::from_words(from, to, word))
            .is_err()
        {
            return Err(Refusal::OutOfMemory);
        }
    }
    Ok(entries)
}

// Reads n branches, all at once if the input shows their bytes, into the memory of a list that is
// not needed any more, by the rule of [`Reader::list_over`]. If the input reports how many bytes it
// has, nothing is allocated for a list that does not fit.
pub(crate) fn read_branches<'p, I: Input<'p>, E: Endian>(
    reader: &mut Reader<I, E>,
    spare: Vec<BranchEntry>,
    count: usize,
) -> ReadResult<Vec<BranchEntry>>
    ensures short { falls_short (I.hint (input_of reader.old)) (24 * count) ≡ true →
        NeedsNoMemory (kinds result) × IfOk result (λ v. ⊥) }
    ensures call { Call I.source E.order
        (ReadsOne (words (3 * count)) (λ v. flat_map branch_numbers v.items))
        reader.old (kinds result) reader.new }
{
    if reader.has_items(count, SIZE) == Some(false) {
        return Err(reader.read_to_the_end(NUMBERS, count));
    }
    let mut entries = reader.list_over(spare, count)?;
    if 0 < count && count <= reader.input().shown_bytes().len() / SIZE {
        let none = BranchEntry::from_words(0, 0, 0);
        if entries.resize(count, none).is_err() {
            return Err(Refusal::OutOfMemory);
        }
        if read_shown(reader, entries.as_mut_slice())? {
            return Ok(entries);
        }
        entries.clear();
    }
    append_branches(reader, entries, count)
}
