// Texts in small letters, compared by their first letters.
ghost use Rattle.std.specs.Prelude.{◌≡◌, ◌≤◌, length, take};
ghost use Rattle.index_keys.specs.Cuts.{cut_number};
ghost use Rattle.tune_titles.specs.Articles.{small_letters};
ghost use Rattle.tune_titles.specs.Order.{small_order};

use byteorder::{BigEndian, ByteOrder};
use index_keys::IndexKey;
use std::cmp::Ordering;

// How many letters of a text its front holds.
const FRONT: usize = 16;

// The first letters of a text, made small, as a number. It stands beside a text that is compared
// with many others: most of these have another front, and that decides.
pub(crate) fn front_of(text: &[u8]) -> u128
    ensures { result ≡ cut_number 16 0 (small_letters text.now) }
{
    BigEndian::read_u128(IndexKey::<FRONT>::cut_small(text, 0).bytes())
}

// The order in small letters of two texts with these fronts.
pub(crate) fn order_by_fronts(front: u128, one: &[u8], other_front: u128, other: &[u8]) -> Ordering
    requires one { front ≡ cut_number 16 0 (small_letters one.now) }
    requires other { other_front ≡ cut_number 16 0 (small_letters other.now) }
    ensures { result ≡ small_order one.now other.now }
{
    match front.cmp(&other_front) {
        Ordering::Equal => order_behind_front(one, other),
        unequal => unequal,
    }
}

// The order in small letters of two texts of one front.
fn order_behind_front(one: &[u8], other: &[u8]) -> Ordering
    requires { cut_number 16 0 (small_letters one.now) ≡ cut_number 16 0 (small_letters other.now) }
    ensures { result ≡ small_order one.now other.now }
{
    let alike = FRONT.min(one.len()).min(other.len());
    small_order(&one[alike..], &other[alike..])
}

// The order of two texts in small letters. What they have alike is passed over in blocks, so that
// letters are made small only from about the first difference on.
fn small_order(one: &[u8], other: &[u8]) -> Ordering
    ensures { result ≡ small_order one.now other.now }
{
    let alike = alike_blocks(one, other);
    let shorter = one.len().min(other.len());
    for i in alike..shorter {
        let first = one[i].to_ascii_lowercase();
        let second = other[i].to_ascii_lowercase();
        match first.cmp(&second) {
            Ordering::Equal => {}
            unequal => return unequal,
        }
    }
    one.len().cmp(&other.len())
}

const BLOCK: usize = 128;

// How many bytes two texts have alike at their fronts, in whole blocks. Most titles have no block.
fn alike_blocks(one: &[u8], other: &[u8]) -> usize
    ensures one { result ≤ length one.now }
    ensures other { result ≤ length other.now }
    ensures alike { take result one.now ≡ take result other.now }
{
    let shorter = one.len().min(other.len());
    let mut at = 0;
    while shorter - at >= BLOCK && one[at..at + BLOCK] == other[at..at + BLOCK] {
        at += BLOCK;
    }
    at
}
