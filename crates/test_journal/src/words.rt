// Words of a line, and what they say.
use std::alloc::Global;

/// The first word of a line, and the others.
pub(crate) fn first_word(line: &str) -> (&str, &str) {
    line.split_once(' ').unwrap_or((line, ""))
}

/// What `N` and `calls` stand for.
#[derive(Clone, Copy)]
pub(crate) struct Numbers {
    pub(crate) n: u64,
    pub(crate) calls: u64,
}

impl Numbers {
    /// The number that a word says.
    pub(crate) fn number(self, word: &str) -> Option<u64> {
        let mut sum: u64 = 0;
        for term in word.split('+') {
            sum = sum.saturating_add(self.term(term)?);
        }
        Some(sum)
    }

    fn term(self, word: &str) -> Option<u64> {
        match word {
            "N" => Some(self.n),
            "calls" => Some(self.calls),
            "last" => Some(self.calls.saturating_sub(1)),
            _ => word.parse().ok(),
        }
    }

    /// A number of four bytes.
    pub(crate) fn short(self, word: &str) -> Option<u32> {
        u32::try_from(self.number(word)?).ok()
    }

    /// The byte that a word says.
    pub(crate) fn byte(self, word: &str) -> Option<u8> {
        if word == "N" {
            return u8::try_from(self.n).ok();
        }
        u8::from_str_radix(word, 16).ok()
    }

    /// The bytes that a word says, with commas between them.
    pub(crate) fn bytes(self, alloc: Global, word: &str) -> Option<Vec<u8>> {
        let mut bytes = Vec::new(alloc);
        if word == "-" {
            return Some(bytes);
        }
        for byte in word.split(',') {
            bytes.push(self.byte(byte)?).ok()?;
        }
        Some(bytes)
    }

    /// The pages that a word says, each with its byte.
    pub(crate) fn entries(self, alloc: Global, word: &str) -> Option<Vec<(u32, u8)>> {
        let mut entries = Vec::new(alloc);
        if word == "-" {
            return Some(entries);
        }
        for entry in word.split(',') {
            entries.push(self.entry(entry)?).ok()?;
        }
        Some(entries)
    }

    fn entry(self, word: &str) -> Option<(u32, u8)> {
        let (page, byte) = word.split_once(':')?;
        Some((self.short(page)?, self.byte(byte)?))
    }
}
