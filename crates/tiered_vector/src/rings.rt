// Rings of 1023 items, one behind another, and how far each is turned.
ghost use Rattle.std.specs.Prelude.{◌≡◌, ◌*◌, ◌<◌, ◌∷◌, ◌++◌, [], length, slice_index_or};
ghost use Rattle.std.specs.List.{insert, remove};
ghost use Rattle.tiered_vector.specs.Tiers.{AreTurns, tiered, turned};

use std::mem;

// How many items a ring has: one less than a power of two, so that the first places of rings do not
// all fall on the same few lines of a processor's cache.
pub(crate) const RING: usize = 1023;

// The first item of a ring goes, and another one comes behind the last.
fn pass_down<T>(ring: &mut [T], turn: &mut u16, last: T) -> T
    requires ring { length ring.old ≡ 1023 }
    requires turn { turn.old < 1023 }
    ensures ring { length ring.new ≡ 1023 }
    ensures turn { turn.new < 1023 }
    ensures items { turned turn.old ring.old ++ last ∷ [] ≡ result ∷ turned turn.new ring.new }
{
    let first = mem::replace(&mut ring[*turn as usize], last);
    *turn = if *turn == 1022 { 0 } else { *turn + 1 };
    first
}

// The last item of a ring goes, and another one comes before the first.
fn pass_up<T>(ring: &mut [T], turn: &mut u16, first: T) -> T
    requires ring { length ring.old ≡ 1023 }
    requires turn { turn.old < 1023 }
    ensures ring { length ring.new ≡ 1023 }
    ensures turn { turn.new < 1023 }
    ensures items { first ∷ turned turn.old ring.old ≡ turned turn.new ring.new ++ result ∷ [] }
{
    *turn = if *turn == 0 { 1022 } else { *turn - 1 };
    mem::replace(&mut ring[*turn as usize], first)
}

// The first item of rings goes, each other moves one place, and one comes behind the last.
pub(crate) fn shift_down<T>(rings: &mut [T], turns: &mut [u16], last: T) -> T
    requires rings { length rings.old ≡ 1023 * length turns.old }
    requires turns { AreTurns turns.old }
    ensures turns { AreTurns turns.new }
    ensures items { tiered turns.old rings.old ++ last ∷ [] ≡ result ∷ tiered turns.new rings.new }
{
    if turns.is_empty() {
        return last;
    }
    // From the last ring on, so that a call is the last step, and no stack is kept.
    let before = turns.len() - 1;
    let (others, ring) = rings.split_at_mut(before * RING);
    let (rest, turn) = turns.split_at_mut(before);
    let next = pass_down(ring, &mut turn[0], last);
    shift_down(others, rest, next)
}

// The last item of rings goes, each other moves one place, and one comes before the first.
pub(crate) fn shift_up<T>(rings: &mut [T], turns: &mut [u16], first: T) -> T
    requires rings { length rings.old ≡ 1023 * length turns.old }
    requires turns { AreTurns turns.old }
    ensures turns { AreTurns turns.new }
    ensures items { first ∷ tiered turns.old rings.old ≡ tiered turns.new rings.new ++ result ∷ [] }
{
    if turns.is_empty() {
        return first;
    }
    let (ring, others) = rings.split_at_mut(RING);
    let (turn, rest) = turns.split_at_mut(1);
    let next = pass_up(ring, &mut turn[0], first);
    shift_up(others, rest, next)
}

// A ring begins where its part does.
pub(crate) fn straighten<T>(ring: &mut [T], turn: &mut u16)
    requires ring { length ring.old ≡ 1023 }
    requires turn { turn.old < 1023 }
    ensures ring { ring.new ≡ turned turn.old ring.old }
    ensures turn { turn.new ≡ 0 }
{
    ring.rotate_left(*turn as usize);
    *turn = 0;
}

// The item at a place of a ring goes, those behind it move, and one comes behind the last.
fn close_ring<T>(ring: &mut [T], place: usize, last: T) -> T
    requires ring { length ring.old ≡ 1023 }
    requires place { place < 1023 }
    ensures gone { result ≡ slice_index_or ring.old place result }
    ensures items { ring.new ≡ remove ring.old place ++ last ∷ [] }
{
    ring[place..].rotate_left(1);
    mem::replace(&mut ring[RING - 1], last)
}

// An item comes to a place of a ring, those from there on move, and the last one goes.
fn open_ring<T>(ring: &mut [T], place: usize, item: T) -> T
    requires ring { length ring.old ≡ 1023 }
    requires place { place < 1023 }
    ensures ring { length ring.new ≡ 1023 }
    ensures items { ring.new ++ result ∷ [] ≡ insert ring.old place item }
{
    ring[place..].rotate_right(1);
    mem::replace(&mut ring[place], item)
}

// The item at a place of the first ring goes, those behind it move, and one comes behind the last.
fn take_from_first<T>(rings: &mut [T], turns: &mut [u16], place: usize, last: T) -> T
    requires some { 0 < length turns.old }
    requires place { place < 1023 }
    requires rings { length rings.old ≡ 1023 * length turns.old }
    requires turns { AreTurns turns.old }
    ensures gone { result ≡ slice_index_or (tiered turns.old rings.old) place result }
    ensures turns { AreTurns turns.new }
    ensures items { tiered turns.new rings.new
        ≡ remove (tiered turns.old rings.old) place ++ last ∷ [] }
{
    if place == 0 {
        return shift_down(rings, turns, last);
    }
    let (ring, others) = rings.split_at_mut(RING);
    let (turn, rest) = turns.split_at_mut(1);
    let next = shift_down(others, rest, last);
    straighten(ring, &mut turn[0]);
    close_ring(ring, place, next)
}

// An item comes to a place of the first ring, those from there on move, and the last one goes.
fn put_into_first<T>(rings: &mut [T], turns: &mut [u16], place: usize, item: T) -> T
    requires some { 0 < length turns.old }
    requires place { place < 1023 }
    requires rings { length rings.old ≡ 1023 * length turns.old }
    requires turns { AreTurns turns.old }
    ensures turns { AreTurns turns.new }
    ensures items { insert (tiered turns.old rings.old) place item
        ≡ tiered turns.new rings.new ++ result ∷ [] }
{
    let (ring, others) = rings.split_at_mut(RING);
    let (turn, rest) = turns.split_at_mut(1);
    straighten(ring, &mut turn[0]);
    let next = open_ring(ring, place, item);
    shift_up(others, rest, next)
}

// The item at a place of rings goes, those behind it move, and one comes behind the last.
pub(crate) fn take_out<T>(rings: &mut [T], turns: &mut [u16], place: usize, last: T) -> T
    requires place { place < length rings.old }
    requires rings { length rings.old ≡ 1023 * length turns.old }
    requires turns { AreTurns turns.old }
    ensures gone { result ≡ slice_index_or (tiered turns.old rings.old) place result }
    ensures turns { AreTurns turns.new }
    ensures items { tiered turns.new rings.new
        ≡ remove (tiered turns.old rings.old) place ++ last ∷ [] }
{
    let ring = place / RING;
    let (_, later) = rings.split_at_mut(ring * RING);
    let (_, rest) = turns.split_at_mut(ring);
    take_from_first(later, rest, place % RING, last)
}

// An item comes to a place of rings, those from there on move, and the last one goes.
pub(crate) fn put_in<T>(rings: &mut [T], turns: &mut [u16], place: usize, item: T) -> T
    requires place { place < length rings.old }
    requires rings { length rings.old ≡ 1023 * length turns.old }
    requires turns { AreTurns turns.old }
    ensures turns { AreTurns turns.new }
    ensures items { insert (tiered turns.old rings.old) place item
        ≡ tiered turns.new rings.new ++ result ∷ [] }
{
    let ring = place / RING;
    let (_, later) = rings.split_at_mut(ring * RING);
    let (_, rest) = turns.split_at_mut(ring);
    put_into_first(later, rest, place % RING, item)
}
