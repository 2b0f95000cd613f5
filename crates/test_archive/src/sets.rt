// Calls on set lists:
//
//     create NAME, add NAME NUMBER, cut NAME PLACE, drop NAME
//                          what the call gives
//     renumbered FROM TO   nothing
//     show, show-copy      a line for each set, or each that was copied: its name and its numbers
//     rows                 a line for each set: its name, and how many places it has
//     write, len           the bytes of all sets, and how many there are
//     holds NUMBER         the name of the least set with the number, or `none`
//     places NAME, places-len NAME
//                          the numbers of a set, and how many these are
//     copy                 nothing; the copy is kept
//     name NAME            the name as a set has it, or `none`
//     same NAME NAME       whether a copy of the first name is the second
//     read BYTES           `Ok`, and the sets are those of the bytes; or why they are refused
//     read-written         the same of the bytes of all sets
//     read-places COUNT    the same of bytes of one set `a`, of so many places
//     read-sets LAST       the same of bytes of sets with the names 1000 to this one
//     week                 nothing; makes three sets
//     fill NAME COUNT      nothing; adds the numbers from 0 on to a set, so many of them
//     create-sets COUNT    nothing; makes the sets `s0`, `s1` and so on
//     own-sets COUNT       adds to each of these its number; how many hold it, and are found by it
use crate::escapes::{bytes_of, is_meant, number, size};
use crate::many_sets::{fill_set, make_sets, make_week, of_places, of_sets, own_sets};
use std::alloc::Global;
use std::io;
use test_cases::{Answer, Bench, Words, no_data};
use tune_sets::{SetLists, SetName};

/// Set lists, and a copy of what they were.
#[derive(Drop)]
pub(crate) struct Sets {
    alloc: Global,
    lists: SetLists,
    copy: SetLists,
}

impl Bench for Sets {
    fn begin(&mut self, _given: &str) -> io::Result<()> {
        self.lists = SetLists::new(self.alloc);
        self.copy = SetLists::new(self.alloc);
        Ok(())
    }

    fn call(&mut self, name: &str, words: Words<'_>, answer: &mut Answer) -> io::Result<()> {
        match name {
            "create" | "add" | "cut" | "drop" | "renumbered" => self.change(name, words, answer),
            "name" | "same" => show_names(self.alloc, name, words, answer),
            "show" | "show-copy" | "rows" | "write" | "len" => self.show(name, answer),
            "holds" | "places" | "places-len" => self.look_up(name, words, answer),
            "read" | "read-written" | "read-places" | "read-sets" => self.read(name, words, answer),
            _ => self.make_many(name, words, answer),
        }
    }

    fn is_wanted(&self, answer: &Answer, written: &str) -> io::Result<bool> {
        is_meant(self.alloc, answer, written)
    }
}

impl Sets {
    pub(crate) fn new(alloc: Global) -> Sets {
        Sets {
            alloc,
            lists: SetLists::new(alloc),
            copy: SetLists::new(alloc),
        }
    }

    // Calls that change one set, or each.
    fn change(&mut self, call: &str, mut words: Words<'_>, answer: &mut Answer) -> io::Result<()> {
        if call == "renumbered" {
            self.lists
                .renumbered(number(&mut words)?, number(&mut words)?);
            return Ok(());
        }
        let name = bytes_of(self.alloc, words.word())?;
        match call {
            "create" => answer.name(self.lists.create(&name)),
            "add" => answer.name(self.lists.add(&name, number(&mut words)?)),
            "cut" => answer.name(self.lists.cut(&name, size(&mut words)?)),
            _ => answer.name(self.lists.drop_set(&name)),
        }
        Ok(())
    }

    // Calls that tell of all sets.
    fn show(&self, call: &str, answer: &mut Answer) -> io::Result<()> {
        match call {
            "show" => show_sets(&self.lists, answer),
            "show-copy" => show_sets(&self.copy, answer),
            "rows" => return show_rows(&self.lists, answer),
            "write" => answer.add(self.lists.write()?.as_slice()),
            _ => answer.show(self.lists.as_slice().len()),
        }
        Ok(())
    }

    // Calls that ask for one number, or one set.
    fn look_up(&self, call: &str, mut words: Words<'_>, answer: &mut Answer) -> io::Result<()> {
        if call == "holds" {
            show_name(self.lists.holds(number(&mut words)?), answer);
            return Ok(());
        }
        let name = bytes_of(self.alloc, words.word())?;
        let places = self.lists.places(&name);
        if call == "places" {
            answer.name(places);
        } else {
            answer.name(places.map(|numbers| numbers.len()));
        }
        Ok(())
    }

    // Calls that read set lists from bytes.
    fn read(&mut self, call: &str, mut words: Words<'_>, answer: &mut Answer) -> io::Result<()> {
        let bytes = match call {
            "read" => bytes_of(self.alloc, words.word())?,
            "read-places" => of_places(self.alloc, number(&mut words)?)?,
            "read-sets" => of_sets(self.alloc, number(&mut words)?)?,
            _ => Vec::from_slice(self.alloc, self.lists.write()?.as_slice())?,
        };
        match SetLists::read(self.alloc, &bytes) {
            Ok(lists) => {
                self.lists = lists;
                answer.say("Ok");
            }
            Err(fault) => answer.name(fault),
        }
        Ok(())
    }

    // Calls that make many changes at once, and the copy.
    fn make_many(
        &mut self,
        call: &str,
        mut words: Words<'_>,
        answer: &mut Answer,
    ) -> io::Result<()> {
        match call {
            "copy" => self.copy = self.lists.copy()?,
            "week" => make_week(&mut self.lists).map_err(|_| no_data())?,
            "fill" => {
                let name = bytes_of(self.alloc, words.word())?;
                fill_set(&mut self.lists, &name, number(&mut words)?)?;
            }
            "create-sets" => make_sets(self.alloc, &mut self.lists, number(&mut words)?)?,
            "own-sets" => {
                answer.show(own_sets(self.alloc, &mut self.lists, number(&mut words)?)?);
            }
            _ => return Err(no_data()),
        }
        Ok(())
    }
}

// A line for each set: its name, a colon, and its numbers.
fn show_sets(lists: &SetLists, answer: &mut Answer) {
    for set in lists.as_slice() {
        answer.add(set.name.as_slice());
        answer.say(":");
        show_numbers(set.numbers.as_slice(), answer);
        answer.say("\n");
    }
}

fn show_numbers(numbers: &[u32], answer: &mut Answer) {
    for number in numbers {
        answer.show(format_args!(" {number}"));
    }
}

// A line for each row: the name of the set, and how many places it has.
fn show_rows(lists: &SetLists, answer: &mut Answer) -> io::Result<()> {
    for row in lists.rows()?.as_slice() {
        answer.add(row.name.as_slice());
        answer.show(format_args!(" {}\n", row.places));
    }
    Ok(())
}

// The bytes of a name, or `none`.
fn show_name(name: Option<SetName>, answer: &mut Answer) {
    match name {
        Some(name) => answer.add(name.as_slice()),
        None => answer.say("none"),
    }
}

// Calls on names alone.
fn show_names(
    alloc: Global,
    call: &str,
    mut words: Words<'_>,
    answer: &mut Answer,
) -> io::Result<()> {
    let name = SetName::new(&bytes_of(alloc, words.word())?);
    if call == "name" {
        show_name(name, answer);
        return Ok(());
    }
    let other = SetName::new(&bytes_of(alloc, words.word())?);
    match (name, other) {
        (Some(name), Some(other)) => answer.show(name == other),
        _ => return Err(no_data()),
    }
    Ok(())
}
