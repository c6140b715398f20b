//! Runs the jobs that the words of a call name, and writes a line for each.
use crate::fault::Fault;
use std::alloc::Global;
use std::process::ExitCode;
use std::rt::Env;
use std::{env, io};

/// A job of a program.
pub trait Job: Copy {
    /// The word that asks for it.
    fn name(self) -> &'static str;

    /// The digest of the results of so many rounds, over inputs that are made from `seed`. The loop
    /// of rounds stands in each program: shared, it makes `columns` dearer.
    ///
    /// # Errors
    ///
    /// The words say why the job failed.
    fn run(self, alloc: Global, seed: u64, rounds: u64) -> Result<u64, Fault>;
}

#[derive(Drop)]
struct Task<J> {
    jobs: Vec<J>,
    seed: u64,
    rounds: u64,
}

/// Runs the job of `all` that the words JOB SEED ROUNDS of the call name, or each for the name
/// `all`. Each writes a line: its name, and a digest of its results.
///
/// The status is 0, or 1 where a job failed. It is 2, after a line with the words that `program`
/// takes, where the words name no job.
pub fn run_jobs<J: Job>(
    rt: &(impl Env + Print + AllocGlobal),
    program: &str,
    all: &[J],
) -> ExitCode {
    let Ok(Some(task)) = read_task(rt, all) else {
        let _ = println!(rt; "usage: {program} JOB SEED ROUNDS");
        return ExitCode::from(2);
    };
    for job in &task.jobs {
        let name = job.name();
        match job.run(rt.alloc(), task.seed, task.rounds) {
            Ok(digest) => {
                let _ = println!(rt; "{name} {digest}");
            }
            Err(Fault(why)) => {
                let _ = println!(rt; "{name}: {why}");
                return ExitCode::from(1);
            }
        }
    }
    ExitCode::from(0)
}

fn read_task<J: Job>(rt: &(impl Env + AllocGlobal), all: &[J]) -> io::Result<Option<Task<J>>> {
    let words: Vec<String> = env::args(rt)?.skip(1).collect(rt.alloc())?;
    let [job, seed, rounds] = words.as_slice() else {
        return Ok(None);
    };
    let mut jobs = Vec::new(rt.alloc());
    for each in all {
        if job.as_str() == "all" || job.as_str() == each.name() {
            jobs.push(*each)?;
        }
    }
    match (seed.parse(), rounds.parse()) {
        (Ok(seed), Ok(rounds)) if !jobs.is_empty() => Ok(Some(Task { jobs, seed, rounds })),
        _ => Ok(None),
    }
}
