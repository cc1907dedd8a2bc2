//! Does one of the jobs that users wait for on made inputs, and prints a digest of all results. The arguments are the
//! job, or `all`, a seed below 2^32 and a number of rounds. `bench/run` times it.
#![tactic(auto)]

mod awkward;
mod chains;
mod digest;
mod errors;
mod filter;
mod lines;
mod packets;
mod parse;
mod random;
mod rewrite;
mod rewriter;
mod statistics;

use anyhow::{Context, Result, bail};
use digest::Digest;
use std::alloc::Global;
use std::env;

/// Does a job in so many rounds.
fn run(alloc: Global, job: &str, seed: u64, rounds: u64) -> Result<Digest> {
    match job {
        "filter" => filter::run(alloc, seed, rounds),
        "statistics" => statistics::run(alloc, seed, rounds),
        "parse" => parse::run(alloc, seed, rounds),
        "rewrite" => rewrite::run(alloc, seed, rounds),
        "rewriter" => rewriter::run(alloc, seed, rounds),
        "lines" => lines::run(alloc, seed, rounds),
        "awkward" => awkward::run(alloc, seed, rounds),
        _ => bail!("no such job: {job}"),
    }
}

/// The jobs.
const JOBS: [&str; 7] = [
    "filter",
    "statistics",
    "parse",
    "rewrite",
    "lines",
    "awkward",
    "rewriter",
];

/// Does a job, and prints the digest of its results.
fn print(rt: &HostRuntime, job: &str, seed: u64, rounds: u64) -> Result<()> {
    let digest = run(rt.alloc(), job, seed, rounds)?.value();
    println!(rt; "{job} {digest:016x}")?;
    Ok(())
}

fn main(rt: HostRuntime) -> Result<()> {
    let words: Vec<String> = env::args(&rt)?.collect(rt.alloc())?;
    if words.len() != 4 {
        bail!("usage: ip_workloads JOB SEED ROUNDS");
    }
    let seed = words[2].as_str().parse::<u64>().context("the seed")?;
    let rounds = words[3].as_str().parse::<u64>().context("the rounds")?;
    if words[1].as_str() != "all" {
        return print(&rt, words[1].as_str(), seed, rounds);
    }
    for job in JOBS {
        print(&rt, job, seed, rounds)?;
    }
    Ok(())
}
