// The order of titles in an index.
//
// - `sort`, rows in columns, each a number, a place and a title: the rows in order.
// - `hundreds`: how many of a thousand rows stand where they have to.
use crate::cases::Case;
use std::alloc::{AllocError, Global};
use test_cases::Answer;
use tune_titles::{TitleRow, sort_rows};

pub(crate) fn answer(alloc: Global, case: &Case, out: &mut Answer) -> Option<()> {
    match case.call {
        "sort" => write_sorted(alloc, case.texts.as_slice(), out),
        "hundreds" => write_hundreds(alloc, out).ok(),
        _ => None,
    }
}

fn write_sorted(alloc: Global, columns: &[Vec<u8>], out: &mut Answer) -> Option<()> {
    let mut rows = Vec::new(alloc);
    for column in columns {
        rows.push(row_of(column.as_slice())?).ok()?;
    }
    sort_rows(&mut rows).ok()?;
    for row in rows.iter() {
        out.show(format_args!("{} {} ", row.number(), row.place()));
        out.add(row.title());
        out.say("\n");
    }
    Some(())
}

fn row_of(text: &[u8]) -> Option<TitleRow<'_>> {
    let text = std::str::from_utf8(text).ok()?;
    let (number, others) = text.split_once(' ')?;
    let (place, title) = others.split_once(' ')?;
    let (number, place) = (number.parse().ok()?, place.parse().ok()?);
    Some(TitleRow::new(title.as_bytes(), number, place))
}

fn write_hundreds(alloc: Global, out: &mut Answer) -> Result<(), AllocError> {
    let mut rows = Vec::new(alloc);
    for number in 0..500_u32 {
        rows.push(TitleRow::new(b"The Kesh", 500 - number, 1))?;
        rows.push(TitleRow::new(b"Kesh, The", 500 - number, 2))?;
    }
    sort_rows(&mut rows)?;
    let mut in_order = 0_u32;
    for (pair, number) in rows.chunks(2).zip(1..501_u32) {
        for (row, place) in pair.iter().zip(1..3_u8) {
            if row.number() == number && row.place() == place {
                in_order = in_order.saturating_add(1);
            }
        }
    }
    out.show(format_args!("{in_order} of {}", rows.len()));
    Ok(())
}
