// Files that are written byte by byte.
use crate::images::uneven;
use crate::words::{Numbers, first_word};
use std::alloc::{AllocError, Global};

/// Makes a call that changes the file. None where it is no such call, or cannot be made.
pub(crate) fn forge(
    alloc: Global,
    file: &mut Vec<u8>,
    numbers: Numbers,
    name: &str,
    rest: &str,
) -> Option<()> {
    match name {
        "file" => write_file(alloc, file, numbers, rest),
        "raw" => {
            *file = numbers.bytes(alloc, rest)?;
            Some(())
        }
        "mark" => {
            mark_unread(file);
            Some(())
        }
        "cut" => {
            file.truncate(numbers.number(rest)? as usize);
            Some(())
        }
        "uneven" => file.extend_from_slice(&uneven().bytes).ok(),
        _ => change(file, numbers, name, rest),
    }
}

fn write_file(alloc: Global, file: &mut Vec<u8>, numbers: Numbers, words: &str) -> Option<()> {
    file.clear();
    add_blocks(file, numbers, words)?;
    add_pages(alloc, file, numbers, words)
}

// Puts zeros behind a file, up to a length.
fn pad(file: &mut Vec<u8>, length: u64) -> Result<(), AllocError> {
    fill(file, length, 0)
}

fn fill(file: &mut Vec<u8>, length: u64, byte: u8) -> Result<(), AllocError> {
    if length as usize > file.len() {
        file.resize(length as usize, byte)?;
    }
    Ok(())
}

fn add_number(file: &mut Vec<u8>, number: u32) -> Result<(), AllocError> {
    file.extend_from_slice(&number.to_be_bytes())
}

// The first four blocks: magic, gate, descriptor and count.
fn add_blocks(file: &mut Vec<u8>, numbers: Numbers, words: &str) -> Option<()> {
    let (gate, words) = first_word(words);
    let (new_count, words) = first_word(words);
    let (entries, words) = first_word(words);
    let (count, _) = first_word(words);
    let gate = numbers.byte(gate)?;
    let descriptor = (numbers.short(new_count)?, numbers.short(entries)?);
    write_blocks(file, gate, descriptor, numbers.short(count)?).ok()
}

fn write_blocks(
    file: &mut Vec<u8>,
    gate: u8,
    descriptor: (u32, u32),
    count: u32,
) -> Result<(), AllocError> {
    file.extend_from_slice(b"ABCTUNE1")?;
    pad(file, 4096)?;
    file.push(gate)?;
    pad(file, 8192)?;
    add_number(file, descriptor.0)?;
    add_number(file, descriptor.1)?;
    pad(file, 12_288)?;
    add_number(file, count)?;
    pad(file, 16_384)
}

// The pages, and behind the new number of them the log, if there is one.
fn add_pages(alloc: Global, file: &mut Vec<u8>, numbers: Numbers, words: &str) -> Option<()> {
    let (_, words) = first_word(words);
    let (new_count, words) = first_word(words);
    let (_, words) = first_word(words);
    let (_, words) = first_word(words);
    let (pages, log) = first_word(words);
    let new_count = numbers.short(new_count)?;
    write_pages(file, &numbers.bytes(alloc, pages)?).ok()?;
    write_log(file, new_count, &numbers.entries(alloc, log)?).ok()
}

fn write_pages(file: &mut Vec<u8>, pages: &[u8]) -> Result<(), AllocError> {
    for byte in pages {
        file.extend_from_slice(&[*byte; 4096])?;
    }
    Ok(())
}

fn write_log(file: &mut Vec<u8>, new_count: u32, log: &[(u32, u8)]) -> Result<(), AllocError> {
    if !log.is_empty() {
        pad(file, (u64::from(new_count) + 4) * 4096)?;
    }
    add_log(file, log)
}

fn add_log(file: &mut Vec<u8>, log: &[(u32, u8)]) -> Result<(), AllocError> {
    for (page, byte) in log {
        add_number(file, *page)?;
        file.extend_from_slice(&[*byte; 4096])?;
    }
    Ok(())
}

// Puts a byte into each place of the first four blocks at which nobody looks.
fn mark_unread(file: &mut [u8]) {
    for offset in 0..16_384 {
        let read = offset < 8
            || offset == 4096
            || (offset >= 8192 && offset < 8200)
            || (offset >= 12_288 && offset < 12_292);
        if !read && let Some(byte) = file.get_mut(offset) {
            *byte = 0xee;
        }
    }
}

// Changes one byte, or puts a byte behind the file up to a length.
fn change(file: &mut Vec<u8>, numbers: Numbers, name: &str, rest: &str) -> Option<()> {
    let (number, byte) = first_word(rest);
    let (number, byte) = (numbers.number(number)?, numbers.byte(byte)?);
    if name == "fill" {
        return fill(file, number, byte).ok();
    }
    let place = file.get_mut(number as usize)?;
    *place = if name == "set" { byte } else { *place ^ byte };
    Some(())
}
