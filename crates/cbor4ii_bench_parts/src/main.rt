//! Parts of jobs, each timed by itself, over inputs that they make from a number.
//!
//! `cbor4ii_bench_parts JOB SEED ROUNDS` writes one line, the job's name and a digest of all its
//! results. The job `all` runs each. The exit status is 0, or 1 where a job failed, or 2 where the
//! words name no job.
#![tactic(auto)]

mod leaves;
mod record;
mod skipped;
mod small;
mod texts;
mod words;
mod written;

use cbor4ii_bench_kit::digest::Digest;
use cbor4ii_bench_kit::fault::Fault;
use cbor4ii_bench_kit::noise::Noise;
use cbor4ii_bench_kit::task::{Job, run_jobs};
use cbor4ii_items::types::{F16, F32, F64};
use std::alloc::Global;
use std::process::ExitCode;

#[derive(Clone, Copy, Debug)]
enum Part {
    Skipped,
    Small,
    Written,
    Texts,
    U8,
    U16,
    I8,
    I16,
    Bool,
    F16,
    F32,
    F64,
    Threes,
}

const PARTS: [Part; 13] = [
    Part::Skipped,
    Part::Small,
    Part::Written,
    Part::Texts,
    Part::U8,
    Part::U16,
    Part::I8,
    Part::I16,
    Part::Bool,
    Part::F16,
    Part::F32,
    Part::F64,
    Part::Threes,
];

impl Job for Part {
    fn name(self) -> &'static str {
        match self {
            Part::Skipped => "skipped",
            Part::Small => "small",
            Part::Written => "written",
            Part::Texts => "texts",
            Part::U8 => "u8",
            Part::U16 => "u16",
            Part::I8 => "i8",
            Part::I16 => "i16",
            Part::Bool => "bool",
            Part::F16 => "f16",
            Part::F32 => "f32",
            Part::F64 => "f64",
            Part::Threes => "threes",
        }
    }

    fn run(self, alloc: Global, seed: u64, rounds: u64) -> Result<u64, Fault> {
        let mut noise = Noise::new(seed);
        let mut digest = Digest::new();
        for _ in 0..rounds {
            match self {
                Part::Skipped => skipped::round(alloc, &mut noise, &mut digest)?,
                Part::Small => small::round(alloc, &mut noise, &mut digest)?,
                Part::Written => written::round(alloc, &mut noise, &mut digest)?,
                Part::Texts => texts::round(alloc, &mut noise, &mut digest)?,
                Part::U8 => leaves::round::<u8>(alloc, &mut noise, &mut digest)?,
                Part::U16 => leaves::round::<u16>(alloc, &mut noise, &mut digest)?,
                Part::I8 => leaves::round::<i8>(alloc, &mut noise, &mut digest)?,
                Part::I16 => leaves::round::<i16>(alloc, &mut noise, &mut digest)?,
                Part::Bool => leaves::round::<bool>(alloc, &mut noise, &mut digest)?,
                Part::F16 => leaves::round::<F16>(alloc, &mut noise, &mut digest)?,
                Part::F32 => leaves::round::<F32>(alloc, &mut noise, &mut digest)?,
                Part::F64 => leaves::round::<F64>(alloc, &mut noise, &mut digest)?,
                Part::Threes => leaves::threes(alloc, &mut noise, &mut digest)?,
            }
        }
        Ok(digest.value())
    }
}

fn main(rt: HostRuntime) -> ExitCode {
    run_jobs(&rt, "cbor4ii_bench_parts", &PARTS)
}
