// What an item of a music line is.
ghost use Rattle.std.specs.Prelude.{◌≡◌};
ghost use Rattle.abc_items.specs.Inside.ItemRows.{front};

/// What an item of a music line is: the rows of the table of items, in its order. From each byte on
/// the first row that fits is taken, as far as it goes.
#[derive(Clone, Copy, Debug, PartialEq, Eq)]
pub enum Kind {
    /// `"`, bytes other than `"` or none, `"`: a chord symbol or an annotation (ABC 2.1, 4.18 and
    /// 4.19).
    Quoted,
    /// `!`, bytes other than `!` or none, `!`; the same with `+` (ABC 2.1, 4.14).
    Decoration,
    /// `{`, bytes other than `}` or none, `}`: grace notes (ABC 2.1, 4.12).
    Grace,
    /// `[`, a letter, `:`, bytes other than `]` or none, `]`, as `[K:Am]` (ABC 2.1, 3.2).
    InlineField,
    /// `[`, one or more bytes that are none of `[`, `]` and `|`, of which the first is no digit,
    /// `]` (ABC 2.1, 4.17). What is inside is a text of its own.
    Chord,
    /// `(`, digits, then as far as it goes `:`, digits or none, `:`, digits or none, as `(3:2:4`
    /// (ABC 2.1, 4.13).
    Tuplet,
    /// `^^`, `^`, `=`, `_`, `__` or none of these, a letter `A` to `G` or `a` to `g`, any mix of
    /// `,` and `'` (ABC 2.1, 4.1 and 4.2).
    Note,
    /// `|` or `:`, a byte of a bar line (ABC 2.1, 4.8).
    Bar,
    /// Any one byte, where no other row fits: what is unclosed too.
    Other,
}

// The item at the front of a text: what it is, and how many bytes it has.
#[derive(Clone, Copy)]
pub(crate) struct Front {
    pub(crate) kind: Kind,
    pub(crate) length: usize,
}

impl Front {
    pub(crate) fn new(kind: Kind, length: usize) -> Front
        ensures { result ≡ front kind length }
    {
        Front { kind, length }
    }
}
