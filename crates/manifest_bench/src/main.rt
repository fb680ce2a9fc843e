//! Reads a manifest list or a manifest whole, and prints how many rows or entries it has: `MODE FILE ROUNDS`.
//!
//! `list` reads the rows of a list, and `manifest` the entries of a manifest whose files have no partition. The whole is done
//! `ROUNDS` times, so that a clock outside sees little but rows and entries.
#![tactic(auto)]

use anyhow::{Result, anyhow, bail};
use ice_schema::PartType;
use manifest_codec::{read_list, read_manifest};
use sqlite_items::Items;
use std::alloc::Global;
use std::rt::{Env, Files};
use std::{env, fs};

fn rows(alloc: Global, bytes: &[u8]) -> Result<usize> {
    match read_list(alloc, bytes) {
        Ok(rows) => Ok(rows.len()),
        Err(e) => Err(anyhow!("{e:?}")),
    }
}

fn entries(alloc: Global, bytes: &[u8]) -> Result<usize> {
    let part = PartType {
        fields: Items::new(alloc),
    };
    match read_manifest(alloc, bytes, &part) {
        Ok(manifest) => Ok(manifest.entries.len()),
        Err(e) => Err(anyhow!("{e:?}")),
    }
}

fn counted<R: Files + Alloc<A = Global>>(rt: &R, mode: &str, path: &str) -> Result<usize> {
    let bytes = fs::read(rt, path)?;
    if mode == "list" {
        return rows(rt.alloc(), bytes.as_slice());
    }
    if mode == "manifest" {
        return entries(rt.alloc(), bytes.as_slice());
    }
    bail!("the mode is list or manifest")
}

fn run<R: Files + Env + Print + Alloc<A = Global>>(rt: &R) -> Result<()> {
    let words = env::args(rt)?;
    let mut words = words.skip(1);
    let (Some(mode), Some(path), Some(rounds)) = (words.next(), words.next(), words.next()) else {
        bail!("MODE FILE ROUNDS");
    };
    let rounds = rounds.parse::<u32>()?;
    for _ in 0..rounds {
        let count = counted(rt, mode.as_str(), path.as_str())?;
        println!(rt; "{count}")?;
    }
    Ok(())
}

fn main(rt: HostRuntime) -> Result<()> {
    run(&rt)
}
