//! What records add to the checksum, modulo 2^64.

ghost use Rattle.std.specs.Prelude.{◌≡◌, ◌∷◌, [], sum};
ghost use Rattle.perf_records.specs.Records.{comm_value, mmap_value, mmap2_value};
ghost use Rattle.perf_reports.specs.Counting.{modulo_word, mmap_sum, mmap2_sum, comm_sum, task_sum};
ghost use Rattle.perf_reports.specs.Counting.{lost_sum, sample_sum};
ghost use Rattle.perf_sample_types.specs.SampleGetters.{getters_of};
ghost use Rattle.perf_sample_types.specs.SampleGroups.{sample_value};

use perf_sample_types::sample::Sample;
use perf_types::{Comm, Exit, Lost, Mmap, Mmap2};

// The sum of a mapping's numbers and the length of its path.
#[inline]
fn mapping_sum(pid: u32, tid: u32, addr: u64, len: u64, pgoff: u64, path_len: usize) -> u64
    ensures { result ≡ modulo_word (sum (pid ∷ tid ∷ addr ∷ len ∷ pgoff ∷ path_len ∷ [])) }
{
    wrapping_sum(&[
        u64::from(pid),
        u64::from(tid),
        addr,
        len,
        pgoff,
        path_len as u64,
    ])
}

pub(crate) fn mmap_sum(mapped: &Mmap) -> u64
    ensures { result ≡ modulo_word (mmap_sum (mmap_value mapped.now)) }
{
    let path_len = mapped.filename.len();
    mapping_sum(
        mapped.pid,
        mapped.tid,
        mapped.addr,
        mapped.len,
        mapped.pgoff,
        path_len,
    )
}

pub(crate) fn mmap2_sum(mapped: &Mmap2) -> u64
    ensures { result ≡ modulo_word (mmap2_sum (mmap2_value mapped.now)) }
{
    let path_len = mapped.filename.len();
    mapping_sum(
        mapped.pid,
        mapped.tid,
        mapped.addr,
        mapped.len,
        mapped.pgoff,
        path_len,
    )
}

pub(crate) fn comm_sum(comm: &Comm) -> u64
    ensures { result ≡ modulo_word (comm_sum (comm_value comm.now)) }
{
    wrapping_sum(&[
        u64::from(comm.pid),
        u64::from(comm.tid),
        comm.comm.len() as u64,
    ])
}

// The start or the end of a task.
pub(crate) fn task_sum(task: &Exit) -> u64
    ensures { result ≡ modulo_word (task_sum task.now) }
{
    wrapping_sum(&[
        u64::from(task.pid),
        u64::from(task.ppid),
        u64::from(task.tid),
        u64::from(task.ptid),
        task.time,
    ])
}

pub(crate) fn lost_sum(lost: &Lost) -> u64
    ensures { result ≡ modulo_word (lost_sum lost.now) }
{
    wrapping_sum(&[lost.id, lost.lost])
}

pub(crate) fn sample_sum(sample: &Sample) -> u64
    ensures { result ≡ modulo_word (sample_sum (getters_of (sample_value sample.now))) }
{
    let chain = match sample.callchain() {
        Some(addresses) => wrapping_sum(addresses),
        None => 0,
    };
    let raw_len = match sample.raw() {
        Some(bytes) => bytes.len() as u64,
        None => 0,
    };
    wrapping_sum(&[
        sample.ip().unwrap_or(0),
        u64::from(sample.pid().unwrap_or(0)),
        u64::from(sample.tid().unwrap_or(0)),
        sample.time().unwrap_or(0),
        sample.period().unwrap_or(0),
        chain,
        raw_len,
    ])
}

// The sum of numbers, modulo 2^64.
#[inline]
fn wrapping_sum(numbers: &[u64]) -> u64
    ensures { result ≡ modulo_word (sum numbers.now) }
{
    let mut total: u64 = 0;
    for number in numbers {
        total = total.wrapping_add(*number);
    }
    total
}
