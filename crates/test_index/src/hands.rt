// What a case has in hand, by the width of its keys.
use crate::held::Held;
use std::alloc::Global;
use std::io;
use test_cases::{Answer, Bench, Words, no_data};

/// What a case has in hand, with keys of its width.
#[derive(Drop)]
pub(crate) struct Hand {
    alloc: Global,
    held: AnyHeld,
}

#[derive(Drop)]
enum AnyHeld {
    Narrow(Held<4>),
    Middle(Held<32>),
    Wide(Held<48>),
}

impl Hand {
    // With keys of 32 bytes.
    pub(crate) fn new(alloc: Global) -> Hand {
        Hand {
            alloc,
            held: AnyHeld::Middle(Held::new(alloc)),
        }
    }
}

impl Bench for Hand {
    fn begin(&mut self, given: &str) -> io::Result<()> {
        self.held = match given {
            "width 4" => AnyHeld::Narrow(Held::new(self.alloc)),
            "width 32" => AnyHeld::Middle(Held::new(self.alloc)),
            "width 48" => AnyHeld::Wide(Held::new(self.alloc)),
            _ => return Err(no_data()),
        };
        Ok(())
    }

    fn call(&mut self, name: &str, words: Words<'_>, answer: &mut Answer) -> io::Result<()> {
        let is_made = match &mut self.held {
            AnyHeld::Narrow(held) => held.call(self.alloc, name, words, answer),
            AnyHeld::Middle(held) => held.call(self.alloc, name, words, answer),
            AnyHeld::Wide(held) => held.call(self.alloc, name, words, answer),
        };
        if is_made { Ok(()) } else { Err(no_data()) }
    }
}
