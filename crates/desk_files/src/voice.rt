// Standard output and standard error, and on a terminal a line that tells how far an order is.
use desk_scenes::Progress;
use std::cell::Cell;
use std::io;
use std::io::Write;
use std::rt::Clock;
use std::time::{Duration, Instant};

// An order tells nothing before it has taken so long, and then so often at most.
const SILENCE_MILLIS: u64 = 1000;

const PAUSE_MILLIS: u64 = 200;

// Has a terminal erase the line on which its cursor is (ECMA-48, 8.3.41).
const ERASE: &str = "\r\x1b[K";

/// The line on standard error that tells how far an order is.
#[derive(Drop)]
pub struct ProgressLine<'a, R> {
    rt: &'a R,
    // When it may be told anew; none where it is never to be.
    next: Cell<Option<Instant>>,
    // Whether the cursor stands behind it.
    is_there: Cell<bool>,
}

impl<'a, R: Clock> ProgressLine<'a, R> {
    /// Nothing is told yet; where standard error is no terminal, nothing ever is.
    pub fn new(rt: &'a R, is_terminal: bool) -> ProgressLine<'a, R> {
        let next = if is_terminal {
            after(rt, SILENCE_MILLIS)
        } else {
            None
        };
        ProgressLine {
            rt,
            next: Cell::new(next),
            is_there: Cell::new(false),
        }
    }
}

// The moment so many milliseconds from now, where there is a clock.
fn after<R: Clock>(rt: &R, millis: u64) -> Option<Instant> {
    match Instant::now(rt) {
        Ok(now) => now.checked_add(Duration::from_millis(millis)),
        Err(_) => None,
    }
}

// Whether a moment has come.
fn has_come<R: Clock>(rt: &R, moment: Instant) -> bool {
    match Instant::now(rt) {
        Ok(now) => now.checked_duration_since(moment).is_some(),
        Err(_) => false,
    }
}

impl<'a, R: Eprint> ProgressLine<'a, R> {
    /// Takes the line away, if it is there: what comes next stands in its place.
    pub fn clear(&self) {
        if self.is_there.get() {
            self.is_there.set(false);
            let _ = eprint!(self.rt; "{ERASE}");
        }
    }

    /// Tells what the system answered of a path, or of a stream. Where that cannot be written, the
    /// status says enough.
    pub fn tell(&self, path: &str, error: &io::Error) {
        self.clear();
        let _ = eprintln!(self.rt; "tunes-book: {path}: {error}");
    }
}

impl<'a, 'b, R: Clock + Eprint> Progress for &'b ProgressLine<'a, R> {
    fn progress(&mut self, what: &str, done: u64, all: u64) {
        let Some(next) = self.next.get() else {
            return;
        };
        if !has_come(self.rt, next) {
            return;
        }
        self.next.set(after(self.rt, PAUSE_MILLIS));
        self.is_there.set(true);
        let _ = eprint!(self.rt; "{ERASE}tunes-book: {what}: {done} of {all}");
    }
}

/// Standard output or standard error: what is written stands in the place of that line.
#[derive(Drop)]
pub struct Voice<'a, R, W> {
    line: &'a ProgressLine<'a, R>,
    stream: W,
}

impl<'a, R, W> Voice<'a, R, W> {
    /// A stream beside this line.
    pub fn new(line: &'a ProgressLine<'a, R>, stream: W) -> Voice<'a, R, W> {
        Voice { line, stream }
    }
}

impl<'a, R: Eprint, W: Write> Write for Voice<'a, R, W> {
    fn write(&mut self, buf: &[u8]) -> io::Result<usize> {
        self.line.clear();
        self.stream.write(buf)
    }

    fn flush(&mut self) -> io::Result<()> {
        self.stream.flush()
    }
}

impl<'a, R: Clock + Eprint, W> Progress for Voice<'a, R, W> {
    fn progress(&mut self, what: &str, done: u64, all: u64) {
        self.line.progress(what, done, all);
    }
}
