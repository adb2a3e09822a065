ghost use Rattle.std.specs.Prelude.{◌≡◌, ◌≤◌, IfOk, IfSome, List, ℕ, length, map, option_map};
ghost use Rattle.toml.specs.View.{array_view, table_view, view};
ghost use Rattle.mb_jobs.specs.Keys.{few_texts, some_faults, some_order, texts_in, texts_of, unknown_key, is_known, whole_from};

use crate::texts::Text;
use std::alloc::{AllocError, Global};
use toml::value::Array;
use toml::{Table, Value};

/// The texts of an array, or `None` where it holds something else.
fn texts_of_array(alloc: Global, array: &Array) -> Result<Option<Vec<&[u8]>>, AllocError>
    ensures { IfOk result (λ found.
        option_map (λ texts. map (λ text. text.now) texts.items) found ≡ texts_of (array_view array.now)) }
{
    let mut texts = Vec::with_capacity(alloc, array.len())?;
    'values: for value in array {
        match value.as_str() {
            Some(text) => texts.push(text.as_bytes())?,
            None => return Ok(None),
        }
    }
    Ok(Some(texts))
}

/// The texts of an array, taken over, or `None` where it holds something else.
fn texts_out_of_array(alloc: Global, array: Array) -> Result<Option<Vec<Text>>, AllocError>
    ensures { IfOk result (λ found. option_map (λ texts. texts.items) found ≡ texts_of (array_view array)) }
{
    let mut texts = Vec::with_capacity(alloc, array.len())?;
    'values: for value in array {
        match value {
            Value::String(text) => texts.push(Text::from_vec(text.into_bytes()))?,
            _ => return Ok(None),
        }
    }
    Ok(Some(texts))
}

/// The texts of a value that is an array of texts, taken over, or `None` where it is none.
pub(crate) fn texts_out_of(alloc: Global, value: Value) -> Result<Option<Vec<Text>>, AllocError>
    ensures { IfOk result (λ found. option_map (λ texts. texts.items) found ≡ texts_in (view value)) }
{
    match value {
        Value::Array(array) => texts_out_of_array(alloc, array),
        _ => Ok(None),
    }
}

/// The texts of a value that is an array of texts, or `None` where it is none.
pub(crate) fn texts_of(alloc: Global, value: &Value) -> Result<Option<Vec<&[u8]>>, AllocError>
    ensures { IfOk result (λ found. option_map (λ texts. map (λ text. text.now) texts.items) found ≡ texts_in (view value.now)) }
{
    match value.as_array() {
        Some(array) => texts_of_array(alloc, array),
        None => Ok(None),
    }
}

/// The whole number of a value that is one, from one bound to another.
pub(crate) fn whole_from(least: u32, most: u32, value: &Value) -> Option<u32>
    ensures { result ≡ whole_from least most (view value.now) }
{
    match value.as_integer() {
        Some(number) if i64::from(least) <= number && number <= i64::from(most) => {
            Some(number as u32)
        }
        _ => None,
    }
}

/// Whether a key is one that a job may have.
fn is_known(key: &[u8]) -> bool
    ensures { result ≡ is_known key.now }
{
    key == b"callers".as_slice()
        || key == b"calls".as_slice()
        || key == b"faults".as_slice()
        || key == b"limit".as_slice()
        || key == b"order".as_slice()
        || key == b"start".as_slice()
        || key == b"threshold".as_slice()
}

/// The first key of a table, in byte order, that no job may have.
pub(crate) fn unknown_key(table: &Table) -> Option<&[u8]>
    ensures { option_map (λ key. key.now) result ≡ unknown_key (table_view table.now) }
{
    'members: for (key, _value) in table.iter() {
        if !is_known(key.as_bytes()) {
            return Some(key.as_bytes());
        }
    }
    None
}
