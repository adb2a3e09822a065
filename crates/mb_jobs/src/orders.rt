ghost use Rattle.std.specs.Prelude.{◌≡◌, ◌<◌, ◌≤◌, nat_lt, length, IfSome, Some, None, option_map, if◌then◌else◌};
ghost use Rattle.mb_jobs.specs.Orders.{bad_in, bad_place, first_bad, is_order_byte, names_caller};

use crate::jobs::Caller;

/// Whether a byte is a caller's letter, small or capital.
fn names_caller(callers: &[Caller], byte: u8) -> bool
    ensures { result ≡ names_caller callers.now byte }
{
    callers.iter().any(|caller| caller.letter == byte
        || u16::from(caller.letter) == u16::from(byte) + 32)
}

/// Whether a byte is a step of an order.
fn is_order_byte(callers: &[Caller], byte: u8) -> bool
    ensures { result ≡ is_order_byte callers.now byte }
{
    byte == b'=' || byte == b'>' || byte == b'*' || byte == b' ' || names_caller(callers, byte)
}

/// The place of the first byte of a text that is no step.
fn bad_at(callers: &[Caller], text: &[u8]) -> Option<usize>
    ensures exact { result ≡ (if nat_lt (bad_place callers.now text.now) (length text.now) then Some (bad_place callers.now text.now) else None) }
    ensures within { IfSome result (λ at. at < length text.now) }
{
    text.iter().position(|byte| !is_order_byte(callers, *byte))
}

/// The same, counted from 1.
fn first_bad(callers: &[Caller], text: &[u8]) -> Option<u64>
    ensures { result ≡ first_bad callers.now text.now }
{
    match bad_at(callers, text) {
        Some(at) => Some(at as u64 + 1),
        None => None,
    }
}

/// The first character of an order that is no step, where there is an order.
pub(crate) fn bad_in(callers: &[Caller], order: Option<&[u8]>) -> Option<u64>
    ensures { result ≡ bad_in callers.now (option_map (λ text. text.now) order.entry) }
{
    match order {
        Some(text) => first_bad(callers, text),
        None => None,
    }
}
