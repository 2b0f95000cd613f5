// The page of help of the program.

/// What `tunes-book --help` prints.
pub(crate) const USAGE: &str = "Usage: tunes-book [-f FILE] [--wait SECONDS] COMMAND [WORD..]

FILE is the archive; without -f it is what the variable TUNES_BOOK names.
  new                  makes an empty archive
  add BOOK..           takes in .abc files, and those of a folder; add --new
                       only tunes that are not there yet, add --split a book
                       above 4,000,000 bytes by parts; add --dry only tries
  import-check BOOK..  tells what becomes of each line of books, without an
                       archive; - is standard input
  find WORDS..         lists the tunes with a title that begins so, with
                       articles, capitals and accents aside; --help tells how
                       they are found by rhythm, key, notes and words within
  count WORDS..        tells how many these are; random WORDS.. takes one
  titles, sets         lists all titles, as an index does; lists the set lists
  twins                lists the tunes that are there twice: of the same text,
                       or else of the same opening of twelve notes and title
  show NUM..           prints tunes
  edit NUM             opens a tune in $VISUAL or $EDITOR, and replaces it
  replace NUM BOOK     puts the tune of a book in its place
  delete NUM..         takes tunes out
  undo                 takes back what was changed last; undo --list lists what
                       can be taken back, undo --to N takes back N changes
  set NAME             lists the tunes of a set list
  put NAME NUM..       puts tunes at its end; makes it where there is none
  cut NAME PLACE..     takes places out of it; drop NAME takes all of it away
  move NAME PLACE TO   moves the tune at a place of it to another place
  export OUT [NAME]    writes all tunes, or those of a set list, as a book
  print OUT [NAME]     writes the same as sheets of music, to OUT.pdf or OUT.ps
  hear NUM OUT.mid     writes a sound file of a tune
  site DIR [NAME]      makes pages for the web, in a folder, with a search
  backup COPY          copies the archive; restore COPY puts it in its place
  dump OUT             writes all as a script; load SCRIPT makes FILE from it
  check [COPY]         opens the archive or a copy, and tells how much it holds
  ask                  answers the questions of a script on standard input
  upgrade              brings an archive of layout 1 to layout 2, which holds
                       more; there is no way back but a copy

`COMMAND --help` has the options of a command, --json and --csv among them.
With --tune NUM export and print take single tunes. Where OUT is -, it is
standard output. OUT is never FILE, nor any archive, and no file that is there:
--force lets export, print, hear and dump write over one that is no archive,
and restore over such a FILE. --wait waits so long while another program has
FILE. Status: 0 done; 1 refused, or a device or a tool failed; 2 wrong words;
3 no archive, or a damaged one; 4 another program is missing. Examples:
  tunes-book -f tunes.abcx find kesh
  tunes-book -f tunes.abcx print friday.pdf friday";
