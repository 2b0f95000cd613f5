// How the tunes and set lists of an entry stand.
ghost use Rattle.std.specs.Prelude.{◌≡◌, ◌≤◌, ◌||◌, ◌&&◌, true, drop, length, None, Some, Ok};
ghost use Rattle.tune_asking.specs.AskingCalls.{Call, told_by};
ghost use Rattle.tune_changes.specs.Judging.{numbers_begin_with, is_after, is_as_before};
ghost use Rattle.tune_changes.specs.Judging.{is_between};
ghost use Rattle.tune_changes.specs.Judging.{is_on_the_way, is_run_of, is_same, numbers_or_none};
ghost use Rattle.tune_changes.specs.Judging.{part_verdict, says_before, says_changed};
ghost use Rattle.tune_changes.specs.Judging.{set_verdict, tune_verdict, verdict_on};
ghost use Rattle.tune_changes.specs.Judging.{verdict_unless};

use crate::looking::{numbers_if_any, tune_if_any};
use crate::set_bringing::common_front;
use abc_fields::TuneText;
use std::alloc::Global;
use tune_sets::NumberList;
use tune_store::{Refusal, Tune, TuneStore};
use tune_undo::{After, Entry, Part, Sum};

/// How the tune or the set list of a part of an entry stands.
#[derive(Clone, Copy, PartialEq, Eq)]
pub enum PartVerdict {
    /// It is what it was before the change.
    Before,
    /// It is what the change was to make of it.
    After,
    /// It is a set list that a stop left on the way.
    Between,
    /// It is none of these: it was changed meanwhile.
    Changed,
}

/// How the tunes and set lists of an entry stand.
#[derive(Clone, Copy, PartialEq, Eq)]
pub enum Verdict {
    /// All are what they were: the change did not take place.
    Before,
    /// The change was begun, or done, and nothing else came.
    Begun,
    /// That of the part at this place, counted from 0, was changed meanwhile; it is the first one.
    Changed(usize),
}

/// How the tunes and set lists of an entry stand. The store is only asked. The refusals are
/// `OutOfMemory` and `Device`.
pub fn judged<S: TuneStore>(alloc: Global, store: &mut S, entry: &Entry) -> Result<Verdict, Refusal>
    ensures { Call S.TuneStore store.old store.new
        (told_by (λ state. Ok (verdict_on entry.now.parts.items state))) result }
{
    judged_parts(alloc, store, entry.parts.as_slice())
}

// The same of parts.
fn judged_parts<S: TuneStore>(
    alloc: Global,
    store: &mut S,
    parts: &[Part],
) -> Result<Verdict, Refusal>
    ensures { Call S.TuneStore store.old store.new
        (told_by (λ state. Ok (verdict_on parts.now state))) result }
{
    let mut before = true;
    for place in 0..parts.len() {
        let its = judged_part(alloc, store, &parts[place])?;
        if says_changed(its) {
            return Ok(Verdict::Changed(place));
        }
        before = is_still_before(before, its);
    }
    Ok(verdict_unless_changed(before))
}

// How the parts of an entry stand, of which none was changed.
fn verdict_unless_changed(before: bool) -> Verdict
    ensures { result ≡ verdict_unless None before }
{
    if before {
        Verdict::Before
    } else {
        Verdict::Begun
    }
}

fn is_still_before(before: bool, its: PartVerdict) -> bool
    ensures { result ≡ (before && says_before its) }
{
    before && says_before(its)
}

fn says_changed(verdict: PartVerdict) -> bool
    ensures { result ≡ says_changed verdict }
{
    matches!(verdict, PartVerdict::Changed)
}

fn says_before(verdict: PartVerdict) -> bool
    ensures { result ≡ says_before verdict }
{
    matches!(verdict, PartVerdict::Before)
}

// How the subject of a part stands.
fn judged_part<S: TuneStore>(
    alloc: Global,
    store: &mut S,
    part: &Part,
) -> Result<PartVerdict, Refusal>
    ensures { Call S.TuneStore store.old store.new
        (told_by (λ state. Ok (part_verdict part.now state))) result }
{
    match part {
        Part::Tune { number, was, is } => {
            let now = tune_if_any(store, *number)?;
            Ok(tune_verdict(was, is, &now))
        }
        Part::Set { name, was, is } => {
            let now = numbers_if_any(alloc, store, name)?;
            Ok(set_verdict(was, is, &now))
        }
    }
}

/// How a tune stands, by what it was, what it was to be, and what it is.
pub fn tune_verdict(was: &Option<TuneText>, is: &After, now: &Option<Tune>) -> PartVerdict
    ensures { result ≡ tune_verdict was.now is.now now.now }
{
    if is_before(was, now) {
        PartVerdict::Before
    } else if is_after(is, now) {
        PartVerdict::After
    } else {
        PartVerdict::Changed
    }
}

// Whether a tune is what it was.
fn is_before(was: &Option<TuneText>, now: &Option<Tune>) -> bool
    ensures { result ≡ is_as_before was.now now.now }
{
    match (was, now) {
        (None, None) => true,
        (Some(text), Some(tune)) => tune.text.bytes() == text.bytes(),
        _ => false,
    }
}

// Whether a tune is what it was to be.
fn is_after(is: &After, now: &Option<Tune>) -> bool
    ensures { result ≡ is_after is.now now.now }
{
    match now {
        None => matches!(is, After::Nothing),
        Some(tune) => is_tune_after(is, tune),
    }
}

// The same of a tune that is there.
fn is_tune_after(is: &After, tune: &Tune) -> bool
    ensures { result ≡ is_after is.now (Some tune.now) }
{
    match is {
        After::Nothing => false,
        After::Text(sum) => Sum::of(tune.text.bytes()) == *sum,
        After::Revision(revision) => u32::from(tune.revision) == *revision,
    }
}

/// How a set list stands, by what it was, what it was to be, and what it is.
pub fn set_verdict(
    was: &Option<NumberList>,
    is: &Option<NumberList>,
    now: &Option<NumberList>,
) -> PartVerdict
    ensures { result ≡ set_verdict was.now is.now now.now }
{
    if is_same(was, now) {
        PartVerdict::Before
    } else if is_same(is, now) {
        PartVerdict::After
    } else if is_between(was, is, now) {
        PartVerdict::Between
    } else {
        PartVerdict::Changed
    }
}

// Whether two set lists are the same.
fn is_same(one: &Option<NumberList>, other: &Option<NumberList>) -> bool
    ensures { result ≡ is_same one.now other.now }
{
    match (one, other) {
        (None, None) => true,
        (Some(one), Some(other)) => one.as_slice() == other.as_slice(),
        _ => false,
    }
}

// Whether a stop may have left it on the way.
fn is_between(was: &Option<NumberList>, is: &Option<NumberList>, now: &Option<NumberList>) -> bool
    ensures { result ≡ is_between was.now is.now now.now }
{
    match now {
        None => false,
        Some(now) => is_on_the_way(numbers_or_none(was), numbers_or_none(is), now.as_slice()),
    }
}

fn numbers_or_none(list: &Option<NumberList>) -> &[u32]
    ensures { result.now ≡ numbers_or_none list.now }
{
    match list {
        None => &[],
        Some(list) => list.as_slice(),
    }
}

// Whether a stop may have left numbers on the way from some to others, or back.
fn is_on_the_way(was: &[u32], is: &[u32], now: &[u32]) -> bool
    ensures { result ≡ is_on_the_way was.now is.now now.now }
{
    let kept = common_front(was, is);
    if !begins_with(&was[..kept], now) {
        return false;
    }
    is_behind(&now[kept..], was, is)
}

// Whether numbers stand at neighbouring places of the one list or of the other.
fn is_behind(run: &[u32], was: &[u32], is: &[u32]) -> bool
    ensures { result ≡ (is_run_of run.now was.now || is_run_of run.now is.now) }
{
    is_run_of(run, was) || is_run_of(run, is)
}

// Whether numbers begin with others.
fn begins_with(front: &[u32], numbers: &[u32]) -> bool
    ensures is { result ≡ numbers_begin_with front.now numbers.now }
    ensures long { result ≡ true → length front.now ≤ length numbers.now }
{
    numbers.starts_with(front)
}

// Whether numbers stand at neighbouring places of others.
fn is_run_of(run: &[u32], numbers: &[u32]) -> bool
    ensures { result ≡ is_run_of run.now numbers.now }
{
    for place in 0..numbers.len() {
        if stands_at(run, numbers, place) {
            return true;
        }
    }
    begins_with(run, &[])
}

// Whether numbers stand in others, from a place on.
fn stands_at(run: &[u32], numbers: &[u32], place: usize) -> bool
    requires { place ≤ length numbers.now }
    ensures { result ≡ numbers_begin_with run.now (drop place numbers.now) }
{
    begins_with(run, &numbers[place..])
}
