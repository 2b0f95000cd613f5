// Lists of changes.
use crate::images::{image_of, show_image};
use crate::words::{Numbers, first_word};
use std::alloc::Global;
use test_cases::Answer;
use tune_journal::{Changes, PageImage};

/// Makes a call of a list of changes. None where it is no such call.
pub(crate) fn change(
    alloc: Global,
    changes: &mut Changes,
    numbers: Numbers,
    name: &str,
    rest: &str,
    answer: &mut Answer,
) -> Option<()> {
    let (page, word) = first_word(rest);
    match name {
        "put" => {
            let page = numbers.short(page)?;
            let image = image_of(numbers, word)?;
            put(alloc, changes, page, &image, answer);
        }
        "get" => show(changes, numbers.short(page)?, answer),
        "size" => answer.show(changes.len()),
        _ => answer.show(changes.is_empty()),
    }
    Some(())
}

// Where there is no memory, the changes stay as they were, and the page can be put again.
fn put(alloc: Global, changes: &mut Changes, page: u32, image: &PageImage, answer: &mut Answer) {
    let size = changes.len();
    let mut before = Answer::new(alloc);
    list(changes, &mut before);
    if changes.put(page, image).is_err() {
        list(changes, answer);
        if changes.len() != size || answer.as_slice() != before.as_slice() {
            answer.say(" where there is no memory");
        } else {
            answer.clear();
        }
        let _ = changes.put(page, image);
    }
    list(changes, answer);
}

// Shows the images of pages 0 to 15, as far as they are among the changes.
fn list(changes: &Changes, answer: &mut Answer) {
    let mut is_empty = true;
    for page in 0..16 {
        if let Some(image) = changes.get(page) {
            if !is_empty {
                answer.say(",");
            }
            is_empty = false;
            answer.show(page);
            answer.say(":");
            show_image(&image, answer);
        }
    }
    if is_empty {
        answer.say("-");
    }
}

fn show(changes: &Changes, page: u32, answer: &mut Answer) {
    match changes.get(page) {
        Some(image) => show_image(&image, answer),
        None => answer.say("none"),
    }
}
