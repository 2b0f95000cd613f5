// How many pages an archive uses.
ghost use Rattle.std.specs.Prelude.{◌≡◌, ◌+◌, ◌<◌, ◌≤◌, ℕ, false, List, All, length, replicate};
ghost use Rattle.tune_journal.specs.FileOffsets.{block_bytes};
ghost use Rattle.tune_pages.specs.Faults.{free_pages};
ghost use Rattle.tune_pages.specs.Stand.{Stand, AllFree};
ghost use Rattle.tune_store.specs.State.{State, IsState};
ghost use Rattle.tune_store.specs.Step.{step};
ghost use Rattle.tune_store.specs.declared.command.Command.{Command};
ghost use Rattle.tune_format.specs.States.{Holds};
ghost use Rattle.tune_contents.specs.FilePages.{pages_in_use, pages_of_both};
ghost use Rattle.tune_contents.specs.Holds.{HoldsContents};
ghost use Rattle.tune_contents.specs.Most.{enough_pages, most_in_use, most_used};
ghost use Rattle.tune_contents.specs.declared.contents.Contents.{Contents};

/// The law of state pages: where pages hold a state within the limits, at most so many of them are
/// in use, by its layout: 320,342 in layout 1. Each page has the bytes of a block.
pub fn law_of_state_pages()
    ensures { (s : Stand) (contents : Contents) (state : State)
        → HoldsContents s contents state → IsState state
        → All (λ page. length page ≡ block_bytes) s.pages
        → length s.used ≤ free_pages s.used + most_used state.layout }
{}

/// The law of file pages: how many pages of a file are in use where it stands for a state within
/// the limits, by the file alone.
///
/// - `apart`: none of the pages in use comes twice, and all of them are there.
/// - `few`: at most so many are in use: 320,342 in layout 1, 1,400,693 in layout 2.
/// - `together`: those of the file before a command and those of the file after it are together
///   fewer than 640,684 where the layout was 1, and than 2,801,386 where it was 2.
pub fn law_of_file_pages()
    ensures apart { (file : List ℕ) (state : State) (stands : Holds file state)
        → AllFree (pages_in_use stands) (replicate (length stands.pages) false) }
    ensures few { (file : List ℕ) (state : State) (stands : Holds file state)
        → length (pages_in_use stands) ≤ most_in_use state.layout }
    ensures together { (one other : List ℕ) (state : State) (command : Command)
        (before : Holds one state)
        (after : Holds other (step state command).0)
        → length (pages_of_both before after) < enough_pages state.layout }
{}
