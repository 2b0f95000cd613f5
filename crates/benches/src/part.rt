// A part of a bench, and how long it takes.
use crate::words::Shown;
use std::io;
use std::rt::Clock;
use std::time::Instant;

/// A part that has begun.
#[derive(Clone, Copy)]
pub(crate) struct Part {
    name: &'static str,
    shown: Shown,
    start: Instant,
}

impl Part {
    /// Begins a part now.
    pub(crate) fn begin<R: Clock>(rt: &R, name: &'static str, shown: Shown) -> io::Result<Part> {
        let start = Instant::now(rt)?;
        Ok(Part { name, shown, start })
    }

    /// Prints what the part came to, and how long it took.
    pub(crate) fn end<R: Print + Clock>(self, rt: &R, came_to: u32) -> io::Result<()> {
        let Part { name, shown, start } = self;
        match shown {
            Shown::Nothing => println!(rt; "{name} {came_to}"),
            Shown::Times => {
                let spent = start.elapsed(rt)?.as_micros();
                println!(rt; "{name} {came_to} {spent}")
            }
            Shown::Calls => println!(rt; "part {name} {came_to}"),
        }
    }
}
