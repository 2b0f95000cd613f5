// Lists in JSON.
ghost use Rattle.std.specs.Prelude.{◌≡◌, ◌++◌, ◌∷◌, [], IfOk, OnOk, codes, decimal};
ghost use Rattle.json.specs.Print.{print};
ghost use Rattle.json.specs.Token.{end_array, key, number};
ghost use Rattle.desk_lists.specs.JsonLists.{array_bytes, place_objects, set_object};
ghost use Rattle.desk_lists.specs.JsonLists.{set_objects, text_members, title_members};
ghost use Rattle.desk_lists.specs.JsonLists.{tune_members, tune_objects};

use crate::shown_texts::text_of;
use abc_fields::ByteText;
use json::Writer;
use std::alloc::{AllocError, Global};
use tune_sets::SetRow;
use tune_store::IndexRow;

// An object for each tune.
pub(crate) fn tunes_in_json(alloc: Global, rows: &[IndexRow]) -> Result<Vec<u8>, AllocError>
    ensures { IfOk result (λ bytes. bytes.items ≡ array_bytes (tune_objects rows.now)) }
{
    let mut out = Writer::new(Vec::new(alloc));
    out.begin_array()?;
    for row in rows {
        out.begin_object()?;
        put_tune(alloc, &mut out, row)?;
        out.end_object()?;
    }
    close(out)
}

// An object for each tune, with its place first.
pub(crate) fn places_in_json(alloc: Global, rows: &[IndexRow]) -> Result<Vec<u8>, AllocError>
    ensures { IfOk result (λ bytes. bytes.items ≡ array_bytes (place_objects 1 rows.now)) }
{
    let mut out = Writer::new(Vec::new(alloc));
    out.begin_array()?;
    for i in 0..rows.len() {
        let place = i + 1;
        out.begin_object()?;
        put_number(&mut out, "place", place as u64)?;
        put_tune(alloc, &mut out, &rows[i])?;
        out.end_object()?;
    }
    close(out)
}

// An object for each set list.
pub(crate) fn sets_in_json(alloc: Global, rows: &[SetRow]) -> Result<Vec<u8>, AllocError>
    ensures { IfOk result (λ bytes. bytes.items ≡ array_bytes (set_objects rows.now)) }
{
    let mut out = Writer::new(Vec::new(alloc));
    out.begin_array()?;
    for row in rows {
        put_set(alloc, &mut out, row)?;
    }
    close(out)
}

// Ends the array, and puts a line feed behind it.
pub(crate) fn close(mut out: Writer) -> Result<Vec<u8>, AllocError>
    ensures { IfOk result (λ bytes. bytes.items
        ≡ (out.before ++ print (out.tokens ++ end_array ∷ [])) ++ codes "\n") }
{
    out.end_array()?;
    let mut bytes = out.into_inner();
    bytes.extend_from_slice(b"\n")?;
    Ok(bytes)
}

// The members of a tune.
fn put_tune(alloc: Global, out: &mut Writer, row: &IndexRow) -> Result<(), AllocError>
    ensures tokens { OnOk result (out.new.tokens ≡ out.old.tokens ++ tune_members row.now) }
    ensures before { OnOk result (out.new.before ≡ out.old.before) }
{
    put_number(out, "number", u64::from(row.number))?;
    put_title(alloc, out, &row.title)
}

// A member whose value is a number.
pub(crate) fn put_number(out: &mut Writer, name: &str, value: u64) -> Result<(), AllocError>
    ensures tokens { OnOk result (out.new.tokens
        ≡ out.old.tokens ++ key name.now ∷ number (decimal value) ∷ []) }
    ensures before { OnOk result (out.new.before ≡ out.old.before) }
{
    out.key(name)?;
    out.u64(value)
}

// The member of a title.
pub(crate) fn put_title(
    alloc: Global,
    out: &mut Writer,
    title: &Option<ByteText>,
) -> Result<(), AllocError>
    ensures tokens { OnOk result (out.new.tokens ≡ out.old.tokens ++ title_members title.now) }
    ensures before { OnOk result (out.new.before ≡ out.old.before) }
{
    out.key("title")?;
    match title {
        Some(title) => {
            let text = text_of(alloc, title.as_slice())?;
            out.string(text.as_str())
        }
        None => out.null(),
    }
}

fn put_set(alloc: Global, out: &mut Writer, row: &SetRow) -> Result<(), AllocError>
    ensures tokens { OnOk result (out.new.tokens ≡ out.old.tokens ++ set_object row.now) }
    ensures before { OnOk result (out.new.before ≡ out.old.before) }
{
    out.begin_object()?;
    put_text(alloc, out, "name", row.name.as_slice())?;
    put_number(out, "places", row.places as u64)?;
    out.end_object()
}

// A member whose value is the text of these bytes.
pub(crate) fn put_text(
    alloc: Global,
    out: &mut Writer,
    name: &str,
    bytes: &[u8],
) -> Result<(), AllocError>
    ensures tokens { OnOk result
        (out.new.tokens ≡ out.old.tokens ++ text_members name.now bytes.now) }
    ensures before { OnOk result (out.new.before ≡ out.old.before) }
{
    out.key(name)?;
    let text = text_of(alloc, bytes)?;
    out.string(text.as_str())
}
