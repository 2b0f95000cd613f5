// Where the set of a name stands, and what holds a number.
ghost use Rattle.std.specs.Prelude.{◌≡◌, [], IfOk, IfErr};
ghost use Rattle.tune_sets.specs.Sets.{NamesRiseFrom, holder};
ghost use Rattle.tune_sets.specs.Inside.Search.{NameFoundAt, NameMissingAt};

use crate::names::SetName;
use crate::set_lists::TuneSet;

// Where the set of a name stands, counted from 0, or where it would go.
pub(crate) fn index_of(sets: &[TuneSet], name: &[u8]) -> Result<usize, usize>
    requires { NamesRiseFrom [] sets.now }
    ensures found { IfOk result (λ index. NameFoundAt name.now index sets.now) }
    ensures missing { IfErr result (λ index. NameMissingAt name.now index sets.now) }
{
    sets.binary_search_by(|set| set.name.as_slice().cmp(name))
}

// The least name of a set that holds a number.
pub(crate) fn holder(sets: &[TuneSet], number: u32) -> Option<SetName>
    ensures { result ≡ holder number sets.now }
{
    for set in sets {
        if set.numbers.holds(number) {
            return Some(set.name);
        }
    }
    None
}
