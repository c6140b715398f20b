//! Jobs that a user of this codec waits for, over inputs that they make from a number.
//!
//! `cbor4ii_bench JOB SEED ROUNDS` writes one line, the job's name and a digest of all its results.
//! The job `all` runs each. The exit status is 0, or 1 where a job failed, or 2 where the words
//! name no job.
#![tactic(auto)]

mod blocks;
mod columns;
mod ingest;
mod odd;
mod records;
mod samples;
mod shapes;

use cbor4ii_bench_kit::digest::Digest;
use cbor4ii_bench_kit::fault::Fault;
use cbor4ii_bench_kit::noise::Noise;
use cbor4ii_bench_kit::task::{Job, run_jobs};
use std::alloc::Global;
use std::process::ExitCode;

#[derive(Clone, Copy, Debug)]
enum Work {
    Ingest,
    Samples,
    Blocks,
    Odd,
    Records,
    Columns,
}

const WORKS: [Work; 6] = [
    Work::Ingest,
    Work::Samples,
    Work::Blocks,
    Work::Odd,
    Work::Records,
    Work::Columns,
];

impl Job for Work {
    fn name(self) -> &'static str {
        match self {
            Work::Ingest => "ingest",
            Work::Samples => "samples",
            Work::Blocks => "blocks",
            Work::Odd => "odd",
            Work::Records => "records",
            Work::Columns => "columns",
        }
    }

    fn run(self, alloc: Global, seed: u64, rounds: u64) -> Result<u64, Fault> {
        let mut noise = Noise::new(seed);
        let mut digest = Digest::new();
        for _ in 0..rounds {
            match self {
                Work::Ingest => ingest::round(alloc, &mut noise, &mut digest)?,
                Work::Samples => samples::round(alloc, &mut noise, &mut digest)?,
                Work::Blocks => blocks::round(alloc, &mut noise, &mut digest)?,
                Work::Odd => odd::round(alloc, &mut noise, &mut digest)?,
                Work::Records => records::round(alloc, &mut noise, &mut digest)?,
                Work::Columns => columns::round(alloc, &mut noise, &mut digest)?,
            }
        }
        Ok(digest.value())
    }
}

fn main(rt: HostRuntime) -> ExitCode {
    run_jobs(&rt, "cbor4ii_bench", &WORKS)
}
