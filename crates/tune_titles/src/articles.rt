// The articles of titles.
ghost use Rattle.std.specs.Prelude.{◌≡◌, ◌==◌, ◌<◌, ◌≤◌, suc, length, take, drop, codes};
ghost use Rattle.std.specs.Prelude.{None, Some, IfNone, IfSome, true, false};
ghost use Rattle.std.specs.Char.{to_ascii_lowercase};
ghost use Rattle.std.specs.Str.{bytes_eq};
ghost use Rattle.abc_fields.specs.Bytes.{begins, is_blank};
ghost use Rattle.tune_titles.specs.Articles.{small_letters, is_article, rest_or, title_rest};
ghost use Rattle.tune_titles.specs.Articles.{leading, leading_at, trailing, trailing_at};
ghost use Rattle.tune_titles.specs.Inside.ArticleBytes.{begins_word, ends_article};

use abc_fields::{is_blank, trim_blanks};
use memchr::memrchr;

// An article of a title, and the rest of the title.
#[derive(Clone, Copy, Debug)]
pub(crate) struct Parts<'a> {
    pub(crate) article: &'a [u8],
    pub(crate) rest: &'a [u8],
}

fn is_article(word: &[u8]) -> bool
    ensures { result ≡ is_article word.now }
{
    is_word(word, b"the") || is_word(word, b"a") || is_word(word, b"an")
}

// Whether a word is this one, which is in small letters, but for capitals.
fn is_word(word: &[u8], small: &[u8]) -> bool
    requires { small_letters small.now ≡ small.now }
    ensures { result ≡ bytes_eq (small_letters word.now) small.now }
{
    word.eq_ignore_ascii_case(small)
}

// The article at the front of a title, which has no blanks at its ends.
#[inline(always)]
pub(crate) fn leading(title: &[u8]) -> Option<Parts<'_>>
    ensures none { IfNone result (leading title.now ≡ None) }
    ensures some { IfSome result (λ parts. leading title.now
        ≡ Some (record { article = parts.article.now; rest = parts.rest.now })) }
{
    let end = article_length(title);
    if end == 0 {
        return None;
    }
    let (article, later) = title.split_at(end);
    leading_at(article, later)
}

// The length of the article that begins a title with a blank behind it, and 0 where none does.
fn article_length(title: &[u8]) -> usize
    ensures none { result ≡ 0 → leading title.now ≡ None }
    ensures some { 1 ≤ result → leading title.now
        ≡ leading_at (take result title.now) (drop result title.now) }
    ensures article { 1 ≤ result → is_article (take result title.now) ≡ true }
    ensures within { result ≤ length title.now }
{
    if begins_with_the(title) {
        3
    } else if begins_with_an(title) {
        2
    } else if begins_with_a(title) {
        1
    } else {
        0
    }
}

// Whether the article begins the title, in any capitals, and a blank follows it.
fn begins_with_the(title: &[u8]) -> bool
    ensures { result ≡ begins_word (codes "the") title.now }
{
    match title {
        [first, second, third, after, ..] => {
            is_letter(*first, b't')
                && is_letter(*second, b'h')
                && is_letter(*third, b'e')
                && is_blank(char::from(*after))
        }
        _ => false,
    }
}

fn begins_with_an(title: &[u8]) -> bool
    ensures { result ≡ begins_word (codes "an") title.now }
{
    match title {
        [first, second, after, ..] => {
            is_letter(*first, b'a') && is_letter(*second, b'n') && is_blank(char::from(*after))
        }
        _ => false,
    }
}

fn begins_with_a(title: &[u8]) -> bool
    ensures { result ≡ begins_word (codes "a") title.now }
{
    match title {
        [first, after, ..] => is_letter(*first, b'a') && is_blank(char::from(*after)),
        _ => false,
    }
}

// Whether a byte is this small letter or its capital, which stands 32 before it.
fn is_letter(byte: u8, small: u8) -> bool
    requires from { 97 ≤ small }
    requires to { small ≤ 122 }
    ensures { result ≡ (to_ascii_lowercase byte == small) }
{
    byte == small || byte == small - 32
}

// The article, where the bytes after it have more than blanks.
fn leading_at<'a>(article: &'a [u8], later: &'a [u8]) -> Option<Parts<'a>>
    requires { is_article article.now ≡ true }
    ensures none { IfNone result (leading_at article.now later.now ≡ None) }
    ensures some { IfSome result (λ parts. leading_at article.now later.now
        ≡ Some (record { article = parts.article.now; rest = parts.rest.now })) }
{
    let rest = trim_blanks(later);
    if rest.is_empty() {
        return None;
    }
    Some(Parts { article, rest })
}

// The article at the end of a title, which has no blanks at its ends.
fn trailing(title: &[u8]) -> Option<Parts<'_>>
    ensures none { IfNone result (trailing title.now ≡ None) }
    ensures some { IfSome result (λ parts. trailing title.now
        ≡ Some (record { article = parts.article.now; rest = parts.rest.now })) }
{
    let Some(at) = memrchr(b',', title) else {
        return None;
    };
    trailing_at(&title[..at], after(title, at))
}

// Whether an article may stand at the end. Most titles end with another letter.
fn ends_as_article(title: &[u8]) -> bool
    ensures { result ≡ false → trailing title.now ≡ None }
{
    match title {
        [.., last] => ends_article(*last),
        [] => false,
    }
}

// Whether a byte is the last of an article in any capitals, or a blank, which may follow one.
fn ends_article(byte: u8) -> bool
    ensures { result ≡ ends_article byte }
{
    matches!(byte, b'A' | b'a' | b'E' | b'e' | b'N' | b'n' | b' ' | b'\t')
}

// The bytes after an index.
fn after(title: &[u8], at: usize) -> &[u8]
    requires { at < length title.now }
    ensures { result.now ≡ drop (suc at) title.now }
{
    &title[at + 1..]
}

// The article, where blanks and one are all that follows the comma, and something is before it.
fn trailing_at<'a>(before: &'a [u8], tail: &'a [u8]) -> Option<Parts<'a>>
    ensures none { IfNone result (trailing_at (Some (before.now, tail.now)) ≡ None) }
    ensures some { IfSome result (λ parts. trailing_at (Some (before.now, tail.now))
        ≡ Some (record { article = parts.article.now; rest = parts.rest.now })) }
{
    let article = trim_blanks(tail);
    let rest = trim_blanks(before);
    if !begins_blank(tail) || !is_article(article) || rest.is_empty() {
        return None;
    }
    Some(Parts { article, rest })
}

fn begins_blank(text: &[u8]) -> bool
    ensures { result ≡ begins is_blank text.now }
{
    match text {
        [byte, ..] => is_blank(char::from(*byte)),
        [] => false,
    }
}

// The title without its article. The title has no blanks at its ends.
pub(crate) fn rest_of(title: &[u8]) -> &[u8]
    ensures { result.now ≡ title_rest title.now }
{
    if let Some(parts) = leading(title) {
        return parts.rest;
    }
    if !ends_as_article(title) {
        return title;
    }
    rest_before_article(title)
}

// The title without a trailing article. It stands out of line, so that a title that ends otherwise
// does not pay for the registers of the search.
#[inline(never)]
fn rest_before_article(title: &[u8]) -> &[u8]
    ensures { result.now ≡ rest_or title.now (trailing title.now) }
{
    match trailing(title) {
        Some(parts) => parts.rest,
        None => title,
    }
}
