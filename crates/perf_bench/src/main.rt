//! Measures nothing itself: it does what readers of performance events spend time on, with
//! recordings that it makes, so that it can be timed.
//!
//! `perf_bench WORKLOAD ROUNDS SEED` makes the recordings of a workload from a seed, reads each of
//! them by the public calls, and prints the number of frames, the number of refused ones, and a
//! digest of all that was read. The workloads are `profile`, `pipe`, `ring`, `fields`, `text` and
//! `awkward`; `all` is each of them, one line each. No recording is read twice.
#![tactic(auto)]

mod digest;
mod pool;
mod random;
mod recording;
mod ring;
mod stream;
mod workloads;

use crate::workloads::Workload;
use anyhow::{Result, bail};
use std::env;

const USAGE: &str = "usage: perf_bench profile|pipe|ring|fields|text|awkward|all ROUNDS SEED";

// Each workload by its name.
const WORKLOADS: &[(&str, Workload)] = &[
    ("profile", Workload::Profile),
    ("pipe", Workload::Pipe),
    ("ring", Workload::Ring),
    ("fields", Workload::Fields),
    ("text", Workload::Text),
    ("awkward", Workload::Awkward),
];

fn main(rt: HostRuntime) -> Result<()> {
    let words: Vec<String> = env::args(&rt)?.skip(1).collect(rt.alloc())?;
    let [name, rounds, seed] = words.as_slice() else {
        bail!("{USAGE}");
    };
    let (Ok(rounds), Ok(seed)) = (rounds.parse::<u64>(), seed.parse::<u64>()) else {
        bail!("{USAGE}");
    };
    measure_each(&rt, name.as_str(), rounds, seed)
}

// Measures each workload that a word names.
fn measure_each(rt: &HostRuntime, name: &str, rounds: u64, seed: u64) -> Result<()> {
    for (other, workload) in WORKLOADS {
        if name == *other || name == "all" {
            let digest = workload.measure(rt.alloc(), rounds, seed)?;
            println!(rt;
                "{other} {} {} {}",
                digest.frames, digest.refused, digest.sum
            )?;
        }
    }
    Ok(())
}
