// The bench of the order of titles.
use crate::words::{input, number};
use anyhow::{Result, bail};
use std::alloc::{AllocError, Global};
use std::fs::Files;
use tune_titles::{ShownRow, TitleRow, sort_rows, sort_shown};

// How many rows a pass put in order, and the number of the first.
#[derive(Clone, Copy)]
struct Pass {
    count: usize,
    first: u32,
}

/// Puts the titles in order, and prints what the last pass came to.
pub(crate) fn run<R: Files + Input + Print + AllocGlobal>(rt: &R, words: &[&str]) -> Result<()> {
    let [kind @ ("rows" | "shown"), passes, from @ ..] = words else {
        bail!("usage: benches titles (rows | shown) PASSES [TITLES]");
    };
    let passes = number(passes, u32::MAX)?;
    let text = input(rt, from)?;
    let Pass { count, first } = last_pass(rt.alloc(), &text, *kind == "shown", passes)?;
    println!(rt; "{count} {first}")?;
    Ok(())
}

// What the last of so many passes came to.
fn last_pass(alloc: Global, text: &[u8], is_shown: bool, passes: u32) -> Result<Pass, AllocError> {
    let mut last = Pass { count: 0, first: 0 };
    for _ in 0..passes {
        last = if is_shown {
            shown_pass(alloc, text)?
        } else {
            rows_pass(alloc, text)?
        };
    }
    Ok(last)
}

// Puts the titles of a text in order, numbered from 1 by their lines.
fn rows_pass(alloc: Global, text: &[u8]) -> Result<Pass, AllocError> {
    let mut rows = Vec::new(alloc);
    let mut number: u32 = 0;
    for line in text.split(|byte| *byte == b'\n') {
        number = number.saturating_add(1);
        rows.push(TitleRow::new(line, number, 1))?;
    }
    sort_rows(&mut rows)?;
    Ok(Pass {
        count: rows.len(),
        first: rows.first().map_or(0, |row| row.number()),
    })
}

// The same, with rows that hold what an index shows.
fn shown_pass(alloc: Global, text: &[u8]) -> Result<Pass, AllocError> {
    let mut rows = Vec::new(alloc);
    let mut number: u32 = 0;
    for line in text.split(|byte| *byte == b'\n') {
        number = number.saturating_add(1);
        rows.push(ShownRow::new(alloc, line, number, 1)?)?;
    }
    sort_shown(&mut rows)?;
    Ok(Pass {
        count: rows.len(),
        first: rows.first().map_or(0, |row| row.number()),
    })
}
