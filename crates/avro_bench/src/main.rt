//! Reads every row of an Avro object container file, and prints how many it has: `MODE FILE ROUNDS [OUT]`.
//!
//! `decode` decodes each row, `skip` passes over it, and `recode` decodes and encodes it into blocks of a
//! new file, `OUT`. The whole is done `ROUNDS` times, so that a clock outside sees little but rows.
#![tactic(auto)]

mod rows;

use crate::rows::{decoded, open, recoded, skipped};
use anyhow::{Result, bail};
use std::alloc::Global;
use std::rt::{Env, Files};
use std::{env, fs};

fn round<R: Files + Alloc<A = Global>>(rt: &R, mode: &str, path: &str, out: &str) -> Result<u64> {
    let bytes = fs::read(rt, path)?;
    let file = open(rt.alloc(), bytes.as_slice())?;
    if mode == "decode" {
        return decoded(rt.alloc(), &file, bytes.as_slice());
    }
    if mode == "skip" {
        return skipped(&file, bytes.as_slice());
    }
    if mode == "recode" {
        let (count, written) = recoded(rt.alloc(), &file, bytes.as_slice())?;
        fs::write(rt, out, written.as_slice())?;
        return Ok(count);
    }
    bail!("the mode is decode, skip or recode")
}

fn run<R: Files + Env + Print + Alloc<A = Global>>(rt: &R) -> Result<()> {
    let words = env::args(rt)?;
    let mut words = words.skip(1);
    let (Some(mode), Some(path), Some(rounds)) = (words.next(), words.next(), words.next()) else {
        bail!("MODE FILE ROUNDS [OUT]");
    };
    let out = match words.next() {
        Some(out) => out,
        None => String::new(rt.alloc()),
    };
    let rounds = rounds.parse::<u32>()?;
    for _ in 0..rounds {
        let count = round(rt, mode.as_str(), path.as_str(), out.as_str())?;
        println!(rt; "{count} rows")?;
    }
    Ok(())
}

fn main(rt: HostRuntime) -> Result<()> {
    run(&rt)
}
