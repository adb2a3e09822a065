//! Each event of the core for eight callers keeps a core in order. These are laws: functions without a body whose
//! contract is the law. `Right` and the events stand in `mb_core_spec`, and so do the conditions, a record for each event
//! (`specs/Conditions.antt` there), which are what the event's code owes beside its equation.
//!
//! `laws.rt` has one law for each event (`specs/EventLaws.antt`), for any file system and any disk. `in_order.rt` has what
//! code reads off a core in order (`specs/Readings.antt`).
//!
//! The proofs go by the parts of `Right`: history, checkpoint, log and view (Growing, Images, Replaying), numbers (Numbers),
//! the trace (Traces), copies, floor, pins, room and stamps (Keepings), and all parts together for the steps of a recovery
//! (Orderlies, Rights), for the events of a call (Callings, Enterings, RightsOfCalls) and for the beginning (Begins).
#![tactic(auto)]

mod in_order;
mod laws;

pub use in_order::{
    enters_at_once, floor_is_not_stale, fresh_is_part, inside_flies, log_is_short,
    ordinals_are_places, others_stand, tables_by_rule,
};
pub use laws::{
    call_begins, call_ends, call_enters, call_gathers, call_is_answered, call_is_logged,
    call_is_stale, call_is_unwound, call_leaves, checkpoint_is_taken, core_begins, fault_strikes,
    fault_strikes_again, files_are_reopened, operation_is_replayed, page_is_flushed,
    pages_are_dropped, volume_fails, volume_is_remounted, volume_resumes,
};
