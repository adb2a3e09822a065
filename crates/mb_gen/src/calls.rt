ghost use Rattle.std.specs.Prelude.{◌≡◌, ◌<◌, ◌≤◌, length, IfOk};
ghost use Rattle.mb_gen.specs.Calls.{call_drawn, calls_drawn, row_drawn};
ghost use Rattle.mb_gen.specs.Draws.{of_three, of_two};
ghost use Rattle.mb_gen.specs.Calls.{fill_call, lseek_call, read_call};

use crate::draws::draw;
use crate::rows::{
    close_call, creat_call, fill_call, lseek_call, open_call, read_call, stat_call, unlink_call,
};
use mb_jobs::JobCall;
use rand_core::utils::NextWord;
use std::alloc::{AllocError, Global};

/// A `fill`, whose descriptor, count and byte are drawn in this order.
fn fill_drawn<G: NextWord<u32>>(
    alloc: Global,
    caller: u8,
    draws: &mut G,
) -> Result<JobCall, AllocError>
    ensures { IfOk result (λ call. (call, draws.new) ≡ of_three G.step 4 512 256 (fill_call caller) draws.old) }
{
    let fd = draw(draws, 4);
    let count = draw(draws, 512);
    let byte = draw(draws, 256);
    fill_call(alloc, caller, fd, count, byte as u8)
}

/// A `read`, whose descriptor and count are drawn in this order.
fn read_drawn<G: NextWord<u32>>(
    alloc: Global,
    caller: u8,
    draws: &mut G,
) -> Result<JobCall, AllocError>
    ensures { IfOk result (λ call. (call, draws.new) ≡ of_two G.step 4 512 (read_call caller) draws.old) }
{
    let fd = draw(draws, 4);
    let count = draw(draws, 512);
    read_call(alloc, caller, fd, count)
}

/// An `lseek`, whose descriptor and offset are drawn in this order.
fn lseek_drawn<G: NextWord<u32>>(
    alloc: Global,
    caller: u8,
    draws: &mut G,
) -> Result<JobCall, AllocError>
    ensures { IfOk result (λ call. (call, draws.new) ≡ of_two G.step 4 8192 (lseek_call caller) draws.old) }
{
    let fd = draw(draws, 4);
    let offset = draw(draws, 8192);
    lseek_call(alloc, caller, fd, offset)
}

/// A caller's call of a row of the table, whose words are drawn in their order.
fn row_drawn<G: NextWord<u32>>(
    alloc: Global,
    caller: u8,
    row: u16,
    draws: &mut G,
) -> Result<JobCall, AllocError>
    requires { row < 8 }
    ensures { IfOk result (λ call. (call, draws.new) ≡ row_drawn G.step caller row draws.old) }
{
    match row {
        0 => creat_call(alloc, caller, draw(draws, 16)),
        1 => open_call(alloc, caller, draw(draws, 16)),
        2 => fill_drawn(alloc, caller, draws),
        3 => read_drawn(alloc, caller, draws),
        4 => close_call(alloc, caller, draw(draws, 4)),
        5 => unlink_call(alloc, caller, draw(draws, 16)),
        6 => stat_call(alloc, caller, draw(draws, 16)),
        _ => lseek_drawn(alloc, caller, draws),
    }
}

/// One call: first its caller is drawn, then its row.
fn call_drawn<G: NextWord<u32>>(alloc: Global, draws: &mut G) -> Result<JobCall, AllocError>
    ensures { IfOk result (λ call. (call, draws.new) ≡ call_drawn G.step draws.old) }
{
    let caller = draw(draws, 2);
    let row = draw(draws, 8);
    row_drawn(alloc, caller as u8, row, draws)
}

/// So many calls, one after another.
pub(crate) fn calls_drawn<G: NextWord<u32>>(
    alloc: Global,
    draws: &mut G,
    count: u16,
) -> Result<Vec<JobCall>, AllocError>
    ensures exact { IfOk result (λ calls. (calls.items, draws.new) ≡ calls_drawn G.step count draws.old) }
    ensures size { IfOk result (λ calls. length calls.items ≡ count) }
{
    let mut calls = Vec::with_capacity(alloc, usize::from(count) + 2)?;
    'calls: for _index in 0..count {
        calls.push(call_drawn(alloc, draws)?)?;
    }
    Ok(calls)
}
