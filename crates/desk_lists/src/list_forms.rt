// Lists of tunes and of set lists.
ghost use Rattle.std.specs.Prelude.{◌≡◌, IfOk};
ghost use Rattle.desk_lists.specs.ListForms.{count_line, place_list_bytes, set_list_bytes};
ghost use Rattle.desk_lists.specs.ListForms.{tune_list_bytes};

use crate::json_lists::{places_in_json, sets_in_json, tunes_in_json};
use crate::row_lists::{place_rows, put_number, set_rows, tune_rows};
use crate::tables::{place_table, set_table, tune_table};
use abc_fields::ByteText;
use desk_terms::Form;
use std::alloc::{AllocError, Global};
use tune_sets::SetRow;
use tune_store::IndexRow;

/// A list of tunes: the number and the title of each. Its only error is out of memory.
pub fn tune_list(alloc: Global, rows: &[IndexRow], form: Form) -> Result<ByteText, AllocError>
    ensures { IfOk result (λ list. list ≡ tune_list_bytes form rows.now) }
{
    let bytes = match form {
        Form::Rows => tune_rows(alloc, rows)?,
        Form::Json => tunes_in_json(alloc, rows)?,
        Form::Csv => tune_table(alloc, rows)?,
    };
    Ok(ByteText::from_vec(bytes))
}

/// The tunes of a set list: the place, from 1 on, the number and the title of each. Its only error
/// is out of memory.
pub fn place_list(alloc: Global, rows: &[IndexRow], form: Form) -> Result<ByteText, AllocError>
    ensures { IfOk result (λ list. list ≡ place_list_bytes form rows.now) }
{
    let bytes = match form {
        Form::Rows => place_rows(alloc, rows)?,
        Form::Json => places_in_json(alloc, rows)?,
        Form::Csv => place_table(alloc, rows)?,
    };
    Ok(ByteText::from_vec(bytes))
}

/// A list of set lists: the name of each, and how many places it has. Its only error is out of
/// memory.
pub fn set_list(alloc: Global, rows: &[SetRow], form: Form) -> Result<ByteText, AllocError>
    ensures { IfOk result (λ list. list ≡ set_list_bytes form rows.now) }
{
    let bytes = match form {
        Form::Rows => set_rows(alloc, rows)?,
        Form::Json => sets_in_json(alloc, rows)?,
        Form::Csv => set_table(alloc, rows)?,
    };
    Ok(ByteText::from_vec(bytes))
}

/// A line of one number. Its only error is out of memory.
pub fn count_line(alloc: Global, count: u64) -> Result<ByteText, AllocError>
    ensures { IfOk result (λ line. line ≡ count_line count) }
{
    let mut line = Vec::new(alloc);
    put_number(&mut line, count)?;
    line.extend_from_slice(b"\n")?;
    Ok(ByteText::from_vec(line))
}
