// What holds of set lists, whichever calls are made on them.
ghost use Rattle.std.specs.Prelude.{◌≡◌, ◌≢◌, ℕ, ◌-◌, ◌^◌, ◌<◌, List, [], ◌∷◌, ◌++◌, None, Some};
ghost use Rattle.std.specs.Prelude.{Ok, Err, IsOk};
ghost use Rattle.std.specs.List.{remove};
ghost use Rattle.tune_sets.specs.Numbers.{renumbered_all};
ghost use Rattle.tune_sets.specs.Sets.{AreSetLists, holder, renumbered_sets};
ghost use Rattle.tune_sets.specs.Calls.{create_set, add_number, cut_place, drop_set, places_of};
ghost use Rattle.tune_sets.specs.SetBytes.{written_sets};
ghost use Rattle.tune_sets.specs.Laws.{LeavesPlaces, HoldsNumber, IsLeastHolder};
ghost use Rattle.tune_sets.specs.declared.set_lists.TuneSet.{TuneSet};
ghost use Rattle.tune_sets.specs.declared.faults.SetFault.TheVariants.{NoSuchSet};

/// The law of set lists, by the names of sets.
///
/// - `created`, `added`, `cut`, `dropped`: an accepted call changes the set of its name as it says,
///   and no other one.
/// - `renumbered`: each place that named the one number names the other, in every set; `gone`: no
///   set holds the first one afterwards.
/// - `held`: what is named as the holder of a number holds it, and no set of a lesser name does;
///   `free`: where none is named, no set holds it.
/// - `limits_.`: each call leaves sets within the limits within them.
/// - `bytes`: the bytes of sets within the limits tell the sets.
pub fn law_of_set_lists()
    ensures created { (name : List ℕ) (sets : List TuneSet) → IsOk (create_set name sets).1
        → LeavesPlaces name (Ok []) sets (create_set name sets).0 }
    ensures added { (name : List ℕ) (number : ℕ) (sets : List TuneSet) (old : List ℕ)
        → places_of name sets ≡ Ok old → IsOk (add_number name number sets).1
        → LeavesPlaces name (Ok (old ++ number ∷ [])) sets (add_number name number sets).0 }
    ensures cut { (name : List ℕ) (place : ℕ) (sets : List TuneSet) (old : List ℕ)
        → places_of name sets ≡ Ok old → IsOk (cut_place name place sets).1
        → LeavesPlaces name (Ok (remove old (place - 1))) sets (cut_place name place sets).0 }
    ensures dropped { (name : List ℕ) (sets : List TuneSet) → AreSetLists sets
        → IsOk (drop_set name sets).1
        → LeavesPlaces name (Err NoSuchSet) sets (drop_set name sets).0 }
    ensures renumbered { (from to : ℕ) (name : List ℕ) (sets : List TuneSet) (old : List ℕ)
        → places_of name sets ≡ Ok old
        → places_of name (renumbered_sets from to sets) ≡ Ok (renumbered_all from to old) }
    ensures gone { (from to : ℕ) (sets : List TuneSet) → from ≢ to
        → holder from (renumbered_sets from to sets) ≡ None }
    ensures held { (number : ℕ) (name : List ℕ) (sets : List TuneSet) → AreSetLists sets
        → holder number sets ≡ Some name → IsLeastHolder number name sets }
    ensures free { (number : ℕ) (name : List ℕ) (sets : List TuneSet)
        → holder number sets ≡ None → ¬ HoldsNumber number name sets }
    ensures limits_create { (name : List ℕ) (sets : List TuneSet) → AreSetLists sets
        → AreSetLists (create_set name sets).0 }
    ensures limits_add { (name : List ℕ) (number : ℕ) (sets : List TuneSet) → AreSetLists sets
        → number < 2 ^ 32 → AreSetLists (add_number name number sets).0 }
    ensures limits_cut { (name : List ℕ) (place : ℕ) (sets : List TuneSet) → AreSetLists sets
        → AreSetLists (cut_place name place sets).0 }
    ensures limits_drop { (name : List ℕ) (sets : List TuneSet) → AreSetLists sets
        → AreSetLists (drop_set name sets).0 }
    ensures limits_renumber { (from to : ℕ) (sets : List TuneSet) → to < 2 ^ 32
        → AreSetLists sets → AreSetLists (renumbered_sets from to sets) }
    ensures bytes { (sets others : List TuneSet) → AreSetLists sets → AreSetLists others
        → written_sets sets ≡ written_sets others → sets ≡ others }
{}
