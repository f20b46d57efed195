//! Lexes the file that its argument names, and prints how many lines and tokens it has.
#![tactic(auto)]

use anyhow::{Context, Result};
use pp_tokens::{Lines, lex_file};
use std::{env, fs};

/// How many tokens the lines have.
fn token_count(lines: &Lines) -> u64 {
    let mut count: u64 = 0;
    for line in lines.as_slice() {
        count = count.saturating_add(line.tokens.len() as u64);
    }
    count
}

fn main(rt: HostRuntime) -> Result<()> {
    let path = env::args(&rt)?.nth(1).context("no file is named")?;
    let bytes = fs::read(&rt, path.as_str())?;
    let lines = lex_file(rt.alloc(), bytes.as_slice())?;
    let count = token_count(&lines);
    println!(rt;
        "{} bytes, {} lines, {} tokens",
        bytes.len(),
        lines.len(),
        count
    )?;
    Ok(())
}
