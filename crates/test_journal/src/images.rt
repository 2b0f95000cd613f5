// Images of pages: of one byte, or with one byte that is not zero.
use crate::words::Numbers;
use test_cases::Answer;
use tune_journal::PageImage;

/// A page of this byte alone.
pub(crate) fn image(byte: u8) -> PageImage {
    PageImage {
        bytes: [byte; 4096],
    }
}

/// Bytes that differ from their neighbours, over and over.
pub(crate) fn uneven() -> PageImage {
    let mut bytes = [0; 4096];
    for place in 0..4096 {
        bytes[place] = (place % 251) as u8;
    }
    PageImage { bytes }
}

// Zeros but for one place.
fn image_with(byte: u8, place: usize) -> PageImage {
    let mut image = PageImage::blank();
    if let Some(at) = image.bytes.get_mut(place) {
        *at = byte;
    }
    image
}

/// The image that a word says.
pub(crate) fn image_of(numbers: Numbers, word: &str) -> Option<PageImage> {
    match word.split_once('@') {
        Some((byte, place)) => Some(image_with(numbers.byte(byte)?, place.parse().ok()?)),
        None if word == "blank" => Some(PageImage::blank()),
        None if word == "uneven" => Some(uneven()),
        None => Some(image(numbers.byte(word)?)),
    }
}

/// Shows an image as a word says it.
pub(crate) fn show_image(shown: &PageImage, answer: &mut Answer) {
    let last = shown.bytes[4095];
    let place = shown.bytes.iter().take_while(|byte| **byte == 0).count();
    let byte = shown.bytes.get(place).copied().unwrap_or(0);
    if shown.bytes == image(last).bytes {
        answer.show_hexadecimal(&[last]);
    } else if shown.bytes == image_with(byte, place).bytes {
        answer.show_hexadecimal(&[byte]);
        answer.say("@");
        answer.show(place);
    } else {
        answer.say("other");
    }
}
