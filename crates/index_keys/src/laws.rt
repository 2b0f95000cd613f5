// What holds of keys and of the entries that stand for texts.
ghost use Rattle.std.specs.Prelude.{◌≢◌, ◌^◌, ◌<◌, ◌++◌, [], ◌∷◌, ℕ, List, Contains};
ghost use Rattle.index_keys.specs.Cuts.{LiesWithin};
ghost use Rattle.index_keys.specs.Entries.{AllFit, Entry, IsRising, inserted_all, removed_all};
ghost use Rattle.index_keys.specs.Entries.{values_within};
ghost use Rattle.index_keys.specs.Holdings.{AreSmall, HaveOwnNumbers, HoldsByNumber};
ghost use Rattle.index_keys.specs.Holdings.{HoldsEntries, IsWithout, SameMembers};
ghost use Rattle.index_keys.specs.KeyLists.{HasKeyWithin, KeysRise, rising_keys};

/// The law of cut keys: what begins with a front has its key in the range of the front, from the
/// front filled with zeros to the front filled with 255.
pub fn law_of_cuts()
    ensures { (width : ℕ) (front rest : List ℕ) → LiesWithin width front (front ++ rest) }
{}

/// The laws of keys in order.
///
/// - `rise`: keys in rising order, each once, do rise.
/// - `held`: they are the keys that they were before.
pub fn law_of_keys()
    ensures rise { (keys : List ℕ) → KeysRise 0 (rising_keys keys) }
    ensures held { (keys : List ℕ) → SameMembers keys (rising_keys keys) }
{}

/// The laws of entries in order: what a list of entries is when a run of others went in, and when
/// one went out.
///
/// - `rise_more`, `rise_less`: entries that rise still do.
/// - `fit_more`, `fit_less`: entries that fit into leaves still do.
pub fn law_of_entries()
    ensures rise_more { (entries run : List Entry) → IsRising entries
        → IsRising (inserted_all run entries) }
    ensures rise_less { (entries run : List Entry) → IsRising entries
        → IsRising (removed_all run entries) }
    ensures fit_more { (width : ℕ) (entries run : List Entry) → AllFit width entries
        → AllFit width run → AllFit width (inserted_all run entries) }
    ensures fit_less { (width : ℕ) (entries run : List Entry) → AllFit width entries
        → AllFit width (removed_all run entries) }
{}

/// The laws of held entries: what becomes of the entries of tunes when tunes come and go, and what
/// a range of keys finds. A tune is a number and a text, whose keys are those of `keys_of`.
///
/// - `none`: no tunes have no entries.
/// - `more`: when tunes come in, the run of their entries goes in.
/// - `less`: when a tune goes out, the run of its entries goes out.
/// - `same`: the order of the tunes does not matter, nor how often one is listed.
/// - `candidates`: a tune with a key in a range has its number among the values in that range.
/// - `by_number`: entries that are seen to be those of the tunes, one tune after another, are.
/// - `each`: and they are seen to be, where they rise, no two tunes have one number, and the keys
///   of each tune rise.
pub fn law_of_holdings<Text>()
    ensures none { (keys_of : Text → List ℕ) → HoldsEntries keys_of [] [] }
    ensures more { (keys_of : Text → List ℕ) (tunes more : List (ℕ × Text))
        (entries run : List Entry) → AreSmall tunes → AreSmall more
        → HoldsEntries keys_of tunes entries → HoldsEntries keys_of more run
        → HoldsEntries keys_of (tunes ++ more) (inserted_all run entries) }
    ensures less { (keys_of : Text → List ℕ) (gone : ℕ × Text) (tunes others : List (ℕ × Text))
        (entries run : List Entry) → gone.0 < 2 ^ 32 → AreSmall tunes → IsRising entries
        → IsWithout gone tunes others
        → HoldsEntries keys_of tunes entries → HoldsEntries keys_of (gone ∷ []) run
        → HoldsEntries keys_of others (removed_all run entries) }
    ensures same { (keys_of : Text → List ℕ) (tunes others : List (ℕ × Text))
        (entries : List Entry) → SameMembers tunes others
        → HoldsEntries keys_of tunes entries → HoldsEntries keys_of others entries }
    ensures candidates { (keys_of : Text → List ℕ) (tunes : List (ℕ × Text))
        (entries : List Entry) (low high : ℕ) → HoldsEntries keys_of tunes entries
        → (tune : ℕ × Text) → Contains tunes tune → HasKeyWithin (keys_of tune.1) low high
        → Contains (values_within low high entries) tune.0 }
    ensures by_number { (keys_of : Text → List ℕ) (tunes : List (ℕ × Text))
        (entries : List Entry) → HoldsByNumber keys_of tunes entries
        → HoldsEntries keys_of tunes entries }
    ensures each { (keys_of : Text → List ℕ) (tunes : List (ℕ × Text)) (entries : List Entry)
        → IsRising entries → HaveOwnNumbers tunes
        → ((tune : ℕ × Text) → Contains tunes tune → KeysRise 0 (keys_of tune.1))
        → HoldsEntries keys_of tunes entries → HoldsByNumber keys_of tunes entries }
{}
