// The commands and their arguments, with what help says of them.

use crate::command_table::Argument::{Flag, Lettered, Many, One, Repeated, Several, Valued, Word};
use crate::command_table::HelpText::{About, AtLength, WithUsage};

// An argument: its name first, and last what help says of it; between them, of an option with a
// value, what help calls the value.
pub(crate) enum Argument {
    // An option without a value.
    Flag(&'static str, &'static str),
    // An option with a value.
    Valued(&'static str, &'static str, &'static str),
    // An option with one value or more, which may be given again.
    Repeated(&'static str, &'static str, &'static str),
    // An option with a value, which is given by a letter, the second of these, and not by its name.
    Lettered(&'static str, char, &'static str, &'static str),
    // A word that may be given.
    Word(&'static str, &'static str),
    // Words that may be given.
    Several(&'static str, &'static str),
    // A word that has to be given.
    One(&'static str, &'static str),
    // Words of which one has to be given.
    Many(&'static str, &'static str),
}

// What help says of a command.
pub(crate) enum HelpText {
    // What it does.
    About(&'static str),
    // What it does, and how it is used, where its arguments do not tell that.
    WithUsage(&'static str, &'static str),
    // What it does, in a line and at length.
    AtLength(&'static str, &'static str),
}

// A command.
pub(crate) struct CommandRow {
    pub(crate) name: &'static str,
    pub(crate) help: HelpText,
    pub(crate) arguments: &'static [Argument],
}

const JSON: Argument = Flag("json", "Lists as JSON");

const CSV: Argument = Flag("csv", "Lists as comma-separated values");

const FORCE: Argument = Flag(
    "force",
    "Writes over a file that is there, but never over the archive",
);

const OUT: Argument = One("OUT", "The path of the result; - is standard output");

const WITHIN: Argument = Flag("within", "By words anywhere in a title");

const TITLE: Argument = Valued("title", "T", "One of its titles begins so");

const RHYTHM: Argument = Valued("rhythm", "R", "It has this rhythm");

const KEY: Argument = Valued("key", "K", "It has this key");

const NOTES: Argument = Valued("notes", "N", "It begins with these notes");

const IN: Argument = Valued("in", "KEY", "Reads notes in this key alone");

const WORDS: Argument = Several(
    "WORDS",
    "A KIND and words, or words of a title; KIND is title, rhythm, key or notes",
);

const NUMBER: Argument = One("NUM", "The number of a tune");

const NUMBERS: Argument = Many("NUM", "The number of a tune");

const SET_NAME: Argument = One("NAME", "The name of a set list");

const ANY_SET_NAME: Argument = Word("NAME", "The name of a set list");

const COPY: Argument = One("COPY", "The path of a copy");

// The options of the program itself.
pub(crate) const PROGRAM_ARGUMENTS: [Argument; 2] = [
    Lettered(
        "file",
        'f',
        "FILE",
        "The archive; else it is what the variable TUNES_BOOK names",
    ),
    Valued(
        "wait",
        "SECONDS",
        "Waits so long while another program has it",
    ),
];

// The commands, in the order in which help lists them.
pub(crate) const COMMANDS: [CommandRow; 32] = [
    CommandRow {
        name: "find",
        help: About("Lists tunes by title, rhythm, key or notes"),
        arguments: &[JSON, CSV, WITHIN, TITLE, RHYTHM, KEY, NOTES, IN, WORDS],
    },
    CommandRow {
        name: "count",
        help: About("Tells how many tunes there are, or are found"),
        arguments: &[WITHIN, TITLE, RHYTHM, KEY, NOTES, IN, WORDS],
    },
    CommandRow {
        name: "random",
        help: About("Lists one tune of all, or of those that are found"),
        arguments: &[JSON, CSV, WITHIN, TITLE, RHYTHM, KEY, NOTES, IN, WORDS],
    },
    CommandRow {
        name: "titles",
        help: About("Lists all titles, as an index does"),
        arguments: &[JSON, CSV],
    },
    CommandRow {
        name: "sets",
        help: About("Lists the set lists"),
        arguments: &[JSON, CSV],
    },
    CommandRow {
        name: "set",
        help: About("Lists the tunes of a set list"),
        arguments: &[JSON, CSV, One("NAME", "The name of the set list")],
    },
    CommandRow {
        name: "twins",
        help: AtLength(
            "Lists the tunes that are there twice",
            "Lists the tunes that are there twice, each under the first one before it with the \
             same text, or else the same opening of twelve notes and the same title",
        ),
        arguments: &[JSON, CSV],
    },
    CommandRow {
        name: "show",
        help: About("Prints tunes"),
        arguments: &[NUMBERS],
    },
    CommandRow {
        name: "export",
        help: About("Writes all tunes, those of a set list or some, as a book"),
        arguments: &[
            Repeated("tune", "NUM", "Of the tunes with these numbers"),
            FORCE,
            OUT,
            ANY_SET_NAME,
        ],
    },
    CommandRow {
        name: "dump",
        help: About("Writes all as a script, which load reads"),
        arguments: &[FORCE, OUT],
    },
    CommandRow {
        name: "draft",
        help: About("Writes a tune to a new file, and prints its revision"),
        arguments: &[NUMBER, OUT],
    },
    CommandRow {
        name: "check",
        help: About("Opens the archive or a copy, and tells how much it holds"),
        arguments: &[Word("COPY", "The path of a copy")],
    },
    CommandRow {
        name: "import-check",
        help: About("Tells what of books would be taken in, without an archive"),
        arguments: &[Many(
            "BOOK",
            "The path of a book or of a folder; - is standard input",
        )],
    },
    CommandRow {
        name: "place",
        help: About("Writes standard input to OUT, whole or not at all"),
        arguments: &[FORCE, OUT],
    },
    CommandRow {
        name: "ask",
        help: About("Answers the questions of a script of standard input"),
        arguments: &[],
    },
    CommandRow {
        name: "new",
        help: About("Makes an empty archive"),
        arguments: &[],
    },
    CommandRow {
        name: "add",
        help: WithUsage(
            "Takes in the tunes of books",
            "tunes-book add [OPTIONS] <BOOK>...",
        ),
        arguments: &[
            Flag("new", "Takes only tunes that are not there yet"),
            Flag("split", "Takes a book above 4,000,000 bytes by parts"),
            Flag("dry", "Only tries, and changes nothing"),
            Flag(
                "good",
                "Takes the good tunes of a book, where others are refused",
            ),
            Flag("show-lost", "Prints each line that goes into no tune"),
            Flag(
                "carry",
                "Puts directives between tunes into the tunes behind them",
            ),
            Several(
                "BOOK",
                "The path of a book or of a folder; - is standard input",
            ),
        ],
    },
    CommandRow {
        name: "delete",
        help: About("Takes tunes out"),
        arguments: &[NUMBERS],
    },
    CommandRow {
        name: "replace",
        help: About("Puts the tune of a book in the place of a tune"),
        arguments: &[
            Valued("revision", "REV", "Only where the tune has this revision"),
            NUMBER,
            One(
                "BOOK",
                "The path of a book with one tune; - is standard input",
            ),
        ],
    },
    CommandRow {
        name: "undo",
        help: About("Takes back what was changed last"),
        arguments: &[
            JSON,
            CSV,
            Flag(
                "list",
                "Lists what can be taken back, the last change first",
            ),
            Valued("to", "N", "Takes back the changes 1 to N of that list"),
        ],
    },
    CommandRow {
        name: "put",
        help: WithUsage(
            "Puts tunes at the end of a set list, and makes it where there is none",
            "tunes-book put <NAME> <NUM>...",
        ),
        arguments: &[ANY_SET_NAME, Several("NUM", "The number of a tune")],
    },
    CommandRow {
        name: "cut",
        help: About("Takes places out of a set list"),
        arguments: &[SET_NAME, Many("PLACE", "A place of the set list")],
    },
    CommandRow {
        name: "move",
        help: About("Moves a tune of a set list to another place of it"),
        arguments: &[
            SET_NAME,
            One("PLACE", "The place of the tune"),
            One("TO", "The place where it goes"),
        ],
    },
    CommandRow {
        name: "drop",
        help: About("Takes a set list away; its tunes stay"),
        arguments: &[SET_NAME],
    },
    CommandRow {
        name: "backup",
        help: About("Copies the archive"),
        arguments: &[Valued("keep", "N", "Keeps the last N copies"), COPY],
    },
    CommandRow {
        name: "restore",
        help: About("Puts a copy in the place of the archive, and keeps what was there"),
        arguments: &[FORCE, COPY],
    },
    CommandRow {
        name: "load",
        help: About("Makes the archive by a script, as dump writes it"),
        arguments: &[One("SCRIPT", "The path of a script")],
    },
    CommandRow {
        name: "upgrade",
        help: About("Brings an archive of layout 1 to layout 2, which holds more"),
        arguments: &[],
    },
    CommandRow {
        name: "edit",
        help: WithUsage(
            "Opens a tune in $VISUAL or $EDITOR, and replaces it",
            "tunes-book edit <NUM>",
        ),
        arguments: &[],
    },
    CommandRow {
        name: "print",
        help: WithUsage(
            "Writes tunes as sheets of music, to OUT.pdf or OUT.ps; - is standard output",
            "tunes-book print [--force] [--tune <NUM>]... <OUT> [NAME]",
        ),
        arguments: &[],
    },
    CommandRow {
        name: "hear",
        help: WithUsage(
            "Writes a sound file of a tune, to OUT.mid; - is standard output",
            "tunes-book hear [--force] <NUM> <OUT>",
        ),
        arguments: &[],
    },
    CommandRow {
        name: "site",
        help: WithUsage(
            "Makes pages for the web, in a folder, with a search",
            "tunes-book site <DIR> [NAME]",
        ),
        arguments: &[],
    },
];
