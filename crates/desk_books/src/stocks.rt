// What a book brings to an archive, by what the archive has.
ghost use Rattle.std.specs.Prelude.{◌≡◌, ◌+◌, ◌<◌, ◌^◌, Ok, IfOk, vec_len};
ghost use Rattle.abc_fields.specs.Books.{book_answer};
ghost use Rattle.tune_store.specs.Limits.{layout_number, longest_text};
ghost use Rattle.tune_store.specs.declared.layout.Layout.{Layout};

use abc_fields::{TuneText, split_book};
use std::alloc::Global;
use tune_store::{Catalog, GREATEST_NUMBER, Layout, Refusal};

/// What an archive has, as far as it matters to a book that comes in.
#[derive(Clone, Copy)]
pub(crate) struct Stock {
    pub(crate) layout: Layout,
    // How many tunes there are.
    tunes: usize,
    // The greatest of their numbers, or 0.
    greatest: u32,
}

impl Stock {
    /// That of a store.
    pub(crate) fn of<S: Catalog>(store: &S) -> Stock
        ensures { result.layout ≡ S.layout store.now }
    {
        let tunes = store.len();
        let greatest = if tunes == 0 {
            0
        } else {
            store.label(tunes - 1).number
        };
        Stock {
            layout: store.layout(),
            tunes,
            greatest,
        }
    }

    /// The same in a layout of this number.
    pub(crate) fn laid_out(self, number: u32) -> Stock
        ensures { (layout : Layout) → number ≡ layout_number layout → result.layout ≡ layout }
    {
        let layout = layout_of(number);
        Stock { layout, ..self }
    }

    /// What it is once these tunes came.
    pub(crate) fn with(self, brought: &NewTunes) -> Stock
        ensures { result.layout ≡ self.layout }
    {
        Stock {
            layout: self.layout,
            tunes: self.tunes.saturating_add(brought.texts.len()),
            greatest: brought.last,
        }
    }

    /// What a book brings, or why it is refused.
    pub(crate) fn tunes_of(&self, alloc: Global, book: &[u8]) -> Result<NewTunes, Refusal>
        ensures texts { IfOk result (λ brought. book_answer (longest_text self.now.layout) book.now
            ≡ Ok brought.texts.items) }
        ensures numbers { IfOk result (λ brought.
            brought.first + vec_len brought.texts < 2 ^ 32) }
    {
        let texts = split_book(alloc, book, self.layout.longest_text())?;
        let count = texts.len();
        let most = self.layout.most_tunes();
        if count > most || self.tunes > most - count {
            return Err(Refusal::ArchiveFull);
        }
        let last = self.greatest as usize + count;
        if last > GREATEST_NUMBER as usize {
            return Err(Refusal::NumbersSpent);
        }
        Ok(NewTunes {
            first: self.greatest + 1,
            last: last as u32,
            texts,
        })
    }
}

/// The tunes that a book brings.
#[derive(Drop)]
pub(crate) struct NewTunes {
    // The numbers that they get, from the first to the last.
    pub(crate) first: u32,
    pub(crate) last: u32,
    pub(crate) texts: Vec<TuneText>,
}

// The layout of a number.
fn layout_of(number: u32) -> Layout
    ensures { (layout : Layout) → number ≡ layout_number layout → result ≡ layout }
{
    if number == 1 {
        Layout::One
    } else {
        Layout::Two
    }
}
