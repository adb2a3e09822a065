ghost use Rattle.std.specs.Prelude.{◌≡◌, ◌≤◌, IfOk, IfSome, List, ℕ, Some, Err, codes, length, map, option_map};
ghost use Rattle.std.specs.Option.{option_and_then};
ghost use Rattle.toml.specs.Data.{get_member};
ghost use Rattle.toml.specs.View.{table_view, view};
ghost use Rattle.mb_jobs.specs.Keys.{GivesFields, HasFew, callers_under, faults_under, few_texts, fields_beside, fields_in, given, known_beside, lesser, or_unknown, order_under, some_callers, some_faults, some_order, texts_in, whole_from};

use crate::callers::{callers_of, one_caller};
use crate::jobs::{Caller, JobFault};
use crate::tables::{texts_of, texts_out_of, unknown_key, whole_from};
use crate::texts::Text;
use std::alloc::{AllocError, Global};
use std::cmp::Ordering;
use std::marker::Model;
use toml::{Table, Value};

/// What a job's table holds under its keys.
#[derive(Drop)]
pub(crate) struct KeyFields<'a> {
    pub callers: Vec<Caller>,
    pub calls: Vec<Text>,
    pub faults: Vec<&'a [u8]>,
    pub limit: u32,
    pub order: Option<&'a [u8]>,
    pub start: u32,
    pub threshold: u32,
}

impl<'a> Model for KeyFields<'a> {
    ghost use Rattle.std.specs.Prelude.{map, option_map};
    ghost use Rattle.mb_jobs.specs.Keys.{KeyFields};

    ghost Value = { KeyFields };

    ghost view = { λ a. record { callers = a.callers.items; calls = a.calls.items; faults = map (λ text. text.now) a.faults.items; limit = a.limit; order = option_map (λ text. text.now) a.order; start = a.start; threshold = a.threshold } };
}

/// The value of a table under a key.
fn value_at<'a>(table: &'a Table, key: &str) -> Option<&'a Value>
    ensures { option_map (λ value. view value.now) result ≡ get_member key.now (table_view table.now) }
{
    table.get(key)
}

/// The callers that a value writes.
fn some_callers(alloc: Global, value: &Value) -> Result<Option<Vec<Caller>>, AllocError>
    ensures exact { IfOk result (λ found. option_map (λ callers. callers.items) found ≡ some_callers (view value.now)) }
    ensures few { IfOk result (λ found. IfSome found (λ callers. length callers.items ≤ 8)) }
{
    match texts_of(alloc, value)? {
        Some(texts) => callers_of(alloc, &texts),
        None => Ok(None),
    }
}

/// The callers of a table.
fn callers_at(alloc: Global, table: &Table) -> Result<Option<Vec<Caller>>, AllocError>
    ensures exact { IfOk result (λ found. option_map (λ callers. callers.items) found ≡ callers_under (table_view table.now)) }
    ensures few { IfOk result (λ found. IfSome found (λ callers. length callers.items ≤ 8)) }
{
    match value_at(table, "callers") {
        Some(value) => some_callers(alloc, value),
        None => Ok(Some(one_caller(alloc)?)),
    }
}

/// The texts of the calls, taken over from their value.
fn calls_of(alloc: Global, calls: Option<Value>) -> Result<Option<Vec<Text>>, AllocError>
    ensures { IfOk result (λ found. option_map (λ texts. texts.items) found ≡ option_and_then texts_in (option_map view calls)) }
{
    match calls {
        Some(value) => texts_out_of(alloc, value),
        None => Ok(None),
    }
}

/// At most 1000 texts.
fn some_faults(alloc: Global, value: &Value) -> Result<Option<Vec<&[u8]>>, AllocError>
    ensures exact { IfOk result (λ found.
        option_map (λ texts. map (λ text. text.now) texts.items) found ≡ some_faults (view value.now)) }
    ensures few { IfOk result (λ found. IfSome found (λ texts. length texts.items ≤ 1000)) }
{
    match texts_of(alloc, value)? {
        Some(texts) if texts.as_slice().len() <= 1000 => Ok(Some(texts)),
        _ => Ok(None),
    }
}

/// The texts of a table's faults.
fn faults_at(alloc: Global, table: &Table) -> Result<Option<Vec<&[u8]>>, AllocError>
    ensures few { IfOk result (λ found. IfSome found (λ texts. length texts.items ≤ 1000)) }
    ensures exact { IfOk result (λ found.
        option_map (λ texts. map (λ text. text.now) texts.items) found
        ≡ faults_under (table_view table.now)) }
{
    match value_at(table, "faults") {
        Some(value) => some_faults(alloc, value),
        None => Ok(Some(Vec::new(alloc))),
    }
}

/// The text of an order.
fn some_order(value: &Value) -> Option<Option<&[u8]>>
    ensures { option_map (λ order. option_map (λ text. text.now) order) result ≡ some_order (view value.now) }
{
    match value.as_str() {
        Some(text) => Some(Some(text.as_bytes())),
        None => None,
    }
}

/// The order of a table, which may have none.
fn order_at(table: &Table) -> Option<Option<&[u8]>>
    ensures { option_map (λ order. option_map (λ text. text.now) order) result ≡ order_under (table_view table.now) }
{
    match value_at(table, "order") {
        Some(value) => some_order(value),
        None => Some(None),
    }
}

/// The limit of a table.
fn limit_at(table: &Table) -> Option<u32>
    ensures { result ≡ given 255 (whole_from 0 255) (get_member (codes "limit") (table_view table.now)) }
{
    match value_at(table, "limit") {
        Some(value) => whole_from(0, 255, value),
        None => Some(255),
    }
}

/// The start of a table.
fn start_at(table: &Table) -> Option<u32>
    ensures { result ≡ given 0 (whole_from 0 1000000000) (get_member (codes "start") (table_view table.now)) }
{
    match value_at(table, "start") {
        Some(value) => whole_from(0, 1_000_000_000, value),
        None => Some(0),
    }
}

/// The threshold of a table.
fn threshold_at(table: &Table) -> Option<u32>
    ensures { result ≡ given 64 (whole_from 1 4096) (get_member (codes "threshold") (table_view table.now)) }
{
    match value_at(table, "threshold") {
        Some(value) => whole_from(1, 4096, value),
        None => Some(64),
    }
}

/// A bad key.
fn bad<'a>(alloc: Global, key: &[u8]) -> Result<Result<KeyFields<'a>, Text>, AllocError>
    ensures { IfOk result (λ found. found ≡ Err key.now) }
{
    Ok(Err(Text::from_vec(key.to_vec(alloc)?)))
}

/// What a table holds under the known keys, or the first of them that is bad, where the value of
/// `calls` is taken out of it.
fn known_fields(
    alloc: Global,
    calls: Option<Value>,
    table: &Table,
) -> Result<Result<KeyFields<'_>, Text>, AllocError>
    ensures exact { IfOk result (λ found. found ≡ known_beside (option_map view calls) (table_view table.now)) }
    ensures few { IfOk result (λ found. IfOk found HasFew) }
{
    let Some(callers) = callers_at(alloc, table)? else {
        return bad(alloc, b"callers");
    };
    let Some(calls) = calls_of(alloc, calls)? else {
        return bad(alloc, b"calls");
    };
    let Some(faults) = faults_at(alloc, table)? else {
        return bad(alloc, b"faults");
    };
    let Some(limit) = limit_at(table) else {
        return bad(alloc, b"limit");
    };
    let Some(order) = order_at(table) else {
        return bad(alloc, b"order");
    };
    let Some(start) = start_at(table) else {
        return bad(alloc, b"start");
    };
    let Some(threshold) = threshold_at(table) else {
        return bad(alloc, b"threshold");
    };
    Ok(Ok(KeyFields {
        callers,
        calls,
        faults,
        limit,
        order,
        start,
        threshold,
    }))
}

/// The one of two keys that is before the other in byte order, as a text of its own.
fn lesser(alloc: Global, key: &[u8], other: Text) -> Result<Text, AllocError>
    ensures { IfOk result (λ text. text ≡ lesser key.now other) }
{
    match key.cmp(other.as_slice()) {
        Ordering::Less => Ok(Text::from_vec(key.to_vec(alloc)?)),
        Ordering::Equal | Ordering::Greater => Ok(other),
    }
}

/// What a table holds, with the first unknown key of it looked at too.
fn or_unknown<'a>(
    alloc: Global,
    unknown: Option<&[u8]>,
    found: Result<KeyFields<'a>, Text>,
) -> Result<Result<KeyFields<'a>, Text>, AllocError>
    requires { IfOk found HasFew }
    ensures exact { IfOk result (λ answer. answer ≡ or_unknown (option_map (λ key. key.now) unknown.entry) found.entry) }
    ensures few { IfOk result (λ answer. IfOk answer HasFew) }
{
    let Some(key) = unknown else {
        return Ok(found);
    };
    match found {
        Ok(_) => Ok(Err(Text::from_vec(key.to_vec(alloc)?))),
        Err(other) => Ok(Err(lesser(alloc, key, other)?)),
    }
}

/// Takes the value of `calls` out of a table, so that its texts need no copies.
pub(crate) fn take_calls(table: &mut Table) -> Option<Value>
    ensures { fields_beside (option_map view result) (table_view table.new) ≡ fields_in (table_view table.old) }
{
    table.remove("calls")
}

/// What a table holds under its keys, where the value of `calls` is taken out of it. The error is
/// `BadKey` with the first bad key, or `NoMemory`.
pub(crate) fn fields_of(
    alloc: Global,
    calls: Option<Value>,
    table: &Table,
) -> Result<KeyFields<'_>, JobFault>
    ensures exact { GivesFields result (fields_beside (option_map view calls) (table_view table.now)) }
    ensures few { IfOk result HasFew }
{
    let known = known_fields(alloc, calls, table)?;
    match or_unknown(alloc, unknown_key(table), known)? {
        Ok(fields) => Ok(fields),
        Err(key) => Err(JobFault::BadKey { key }),
    }
}
