ghost use Rattle.std.specs.Prelude.{◌≡◌, ◌<◌, ◌≤◌, ◌+◌, ◌++◌, ◌∷◌, [], Some, None, true, false, length, IfOk, IfSome, IfNone, option_map, replicate, slice_get, slice_set};
ghost use Rattle.std.specs.Borrow.{Lends, sem};
ghost use Rattle.mb_callers.specs.contracts.callers.Callers.{the_row};
ghost use Rattle.mb_callers.specs.contracts.caller_states.CallerState as state_row;
ghost use Rattle.mb_core_spec.specs.Begun.{idle};
ghost use Rattle.mb_core_spec.specs.Callers.{EachCaller, begun, insiders, one_if};
ghost use Rattle.mb_core_spec.specs.State.{CallerState};

use crate::caller_states::CallerState;
use mb_edge::NoMemory;
use std::alloc::Global;
use std::marker::Model;

/// What the core keeps of each caller, by the callers' numbers from 0. A contract sees the list.
pub struct Callers {
    states: Vec<CallerState>,
}

// written out, so that a crate above which lets it go checks one call
impl Drop for Callers {
    fn drop(self) {
        let Callers { states: _ } = self;
    }
}

impl Model for Callers {
    ghost use Rattle.std.specs.Prelude.{List};
    ghost use Rattle.std.specs.Coded.{codes, coded_ℕ};
    ghost use Rattle.std.specs.FinMap as fin;
    ghost use Rattle.std.specs.Ordering.{nat_cmp};
    ghost use Rattle.mb_tree.specs.contracts.seats.PlainFile as file;
    ghost use Rattle.mb_core_spec.specs.State as state;

    ghost Value = { List state.CallerState };

    ghost coded = { Prim.hlevel (codes, fin.code {R = nat_cmp} coded_ℕ coded_ℕ, fin.code {R = nat_cmp} coded_ℕ file.the_row.coded) };

    ghost view = { λ c. c.states.items };
}

impl Callers {
    /// So many callers that did not begin a call. The only error is want of memory.
    pub fn new(alloc: Global, count: u8) -> Result<Callers, NoMemory>
        ensures { IfOk result (λ callers. callers ≡ replicate count idle) }
    {
        let mut states = Vec::new(alloc);
        for _ in 0..count {
            states.push(CallerState::new(alloc))?;
        }
        Ok(Callers { states })
    }

    /// The number of callers.
    pub fn len(&self) -> usize
        ensures { result ≡ length self.now }
    {
        self.states.as_slice().len()
    }

    /// What is kept of a caller.
    pub fn get(&self, caller: u8) -> &CallerState
        requires { caller < length self.now }
        ensures { slice_get self.now caller ≡ Some result.now }
    {
        self.at(usize::from(caller))
    }

    fn at(&self, place: usize) -> &CallerState
        requires { place < length self.now }
        ensures { slice_get self.now place ≡ Some result.now }
    {
        &self.states[place]
    }

    /// What is kept of a caller, to be changed; that of every other one stays.
    pub fn get_mut(&mut self, caller: u8) -> &mut CallerState
        requires { caller < length self.old }
        ensures* changed { sem 𝓛 (Lends the_row state_row.the_row self.entry result (λ w. slice_set self.old caller w)) }
        ensures here { slice_get self.old caller ≡ Some result.now }
    {
        &mut self.states[usize::from(caller)]
    }

    /// How many calls all callers began.
    pub fn begun(&self) -> u64
        requires { length self.now ≤ 8 }
        ensures { result ≡ begun self.now }
    {
        let mut sum = 0;
        for at in 0..self.len() {
            sum += u64::from(self.at(at).begun());
        }
        sum
    }

    /// How many callers are inside.
    pub fn insiders(&self) -> usize
        ensures { result ≡ insiders self.now }
    {
        let mut count = 0;
        for at in 0..self.len() {
            count += one_if(self.at(at).is_inside());
        }
        count
    }

    /// The caller inside with the least number; `None` exactly where nobody is inside.
    pub fn first_inside(&self) -> Option<u8>
        requires { length self.now ≤ 8 }
        ensures inside { IfSome result (λ at.
            option_map (λ (mine : CallerState). mine.inside) (slice_get self.now at) ≡ Some true) }
        ensures least { IfSome result (λ at. EachCaller (λ other one. one.inside ≡ true → at ≤ other) self.now) }
        ensures none { IfNone result (EachCaller (λ caller mine. mine.inside ≡ false) self.now) }
    {
        for at in 0..self.len() {
            if self.at(at).is_inside() {
                return Some(at as u8);
            }
        }
        None
    }
}

fn one_if(inside: bool) -> usize
    ensures count { result ≡ one_if inside }
    ensures few { result ≤ 1 }
{
    if inside { 1 } else { 0 }
}
