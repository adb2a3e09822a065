ghost use Rattle.std.specs.Prelude.{◌≡◌, ◌≤◌, length, Ok, IfOk, option_map};
ghost use Rattle.toml.specs.View.{table_view};
ghost use Rattle.mb_jobs.specs.Job.{GivesJob, GivesTable, job_called, job_in, job_of_document, job_planned, table_in};
ghost use Rattle.mb_jobs.specs.Keys.{HasFew};
ghost use Rattle.mb_jobs.specs.Lists.{calls_in};

use crate::exits::with_exits;
use crate::jobs::{Job, JobCall, JobFault};
use crate::keys::{KeyFields, fields_of, take_calls};
use crate::lists::calls_of;
use crate::orders::bad_in;
use crate::rules::rules_of;
use crate::texts::Text;
use mb_kinds::Seq;
use mb_plan::{Plan, Rule};
use std::alloc::{AllocError, Global};
use std::mem;
use toml::Table;

/// The greatest length of a job's text.
const MOST_TEXT: usize = 4_194_304;

/// The table that some bytes write. The error is `NotToml` or `NoMemory`.
fn table_of(alloc: Global, bytes: &[u8]) -> Result<Table, JobFault>
    ensures { GivesTable result (table_in bytes.now) }
{
    let Ok(text) = std::str::from_utf8(bytes) else {
        return Err(JobFault::NotToml);
    };
    match toml::table_from_str(alloc, text) {
        Ok(table) => Ok(table),
        Err(error) => {
            if error.is_memory() {
                Err(JobFault::NoMemory)
            } else {
                Err(JobFault::NotToml)
            }
        }
    }
}

/// The order of a job, as a text of its own.
fn order_of(alloc: Global, order: Option<&[u8]>) -> Result<Option<Text>, AllocError>
    ensures { IfOk result (λ text. text ≡ option_map (λ bytes. bytes.now) order.entry) }
{
    match order {
        Some(text) => Ok(Some(Text::from_vec(text.to_vec(alloc)?))),
        None => Ok(None),
    }
}

/// The job of a table's fields, of its calls and of its rules, where its order is one.
fn ordered(
    alloc: Global,
    fields: KeyFields<'_>,
    calls: Vec<JobCall>,
    rules: Vec<Rule>,
) -> Result<Job, JobFault>
    ensures { GivesJob result (job_planned fields.entry calls.items (Ok rules.items)) }
{
    if let Some(place) = bad_in(&fields.callers, fields.order) {
        return Err(JobFault::BadOrder { place });
    }
    Ok(Job {
        order: order_of(alloc, fields.order)?,
        callers: Seq::from_vec(fields.callers),
        calls: Seq::from_vec(calls),
        plan: Plan::from_vec(rules),
        start: fields.start,
        threshold: fields.threshold,
        limit: fields.limit,
    })
}

/// The job of a table's fields and of its calls.
fn planned(alloc: Global, fields: KeyFields<'_>, calls: Vec<JobCall>) -> Result<Job, JobFault>
    requires few { HasFew fields }
    requires short { length calls.items ≤ 100000 }
    ensures { GivesJob result (job_called fields.entry (Ok calls.items)) }
{
    let calls = with_exits(alloc, &fields.callers, calls)?;
    match rules_of(alloc, &calls, &fields.faults)? {
        Ok(rules) => ordered(alloc, fields, calls, rules),
        Err(index) => Err(JobFault::BadFault { index }),
    }
}

/// The job of a table's fields.
fn job_of_fields(alloc: Global, mut fields: KeyFields<'_>) -> Result<Job, JobFault>
    requires few { HasFew fields }
    ensures { GivesJob result (job_called fields.entry (calls_in fields.entry.callers fields.entry.calls)) }
{
    let texts = mem::replace(&mut fields.calls, Vec::new(alloc));
    match calls_of(alloc, &fields.callers, texts)? {
        Ok(calls) => planned(alloc, fields, calls),
        Err(index) => Err(JobFault::BadCall { index }),
    }
}

/// Reads a job from its text (this project's form). It takes memory and time in proportion to the
/// text's length.
///
/// The causes why there is none, of which the first is answered: a text of more than 4,194,304 bytes is
/// `TooLong`; one that is no UTF-8 or no TOML document is `NotToml`; then come a key, a call, a fault and a
/// character of the order that is none of those that a job may have there. `NoMemory` may come in place of each.
pub fn job_of(alloc: Global, bytes: &[u8]) -> Result<Job, JobFault>
    ensures { GivesJob result (job_in bytes.now) }
{
    if bytes.len() > MOST_TEXT {
        return Err(JobFault::TooLong);
    }
    let mut table = table_of(alloc, bytes)?;
    let calls = take_calls(&mut table);
    let fields = fields_of(alloc, calls, &table)?;
    job_of_fields(alloc, fields)
}
