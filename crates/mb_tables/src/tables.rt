ghost use Rattle.std.specs.Prelude.{◌≡◌, ◌<◌, ◌^◌, ◌-◌, IfOk, OnOk, OnErr, length};
ghost use Rattle.std.specs.FinMap as fin;
ghost use Rattle.mb_session.specs.OpenFiles.{TellsCounts};
ghost use Rattle.mb_tree.specs.Sessions.{HasDescriptorInRange, counts};
ghost use Rattle.mb_core_spec.specs.Begun.{first_tables};
ghost use Rattle.mb_tables.specs.Follows.{counts_damaged, followed, tables_after};

use crate::counting::{damage_counts, follow, follow_if, is_seen};
use mb_edge::{Damage, NoMemory};
use mb_iface::Opens;
use mb_kinds::Creds;
use mb_session::Sessions;
use mb_tree::{FsOp, SessionChange};
use std::alloc::Global;
use std::marker::Model;

/// The sessions as they are and as they were at the last checkpoint, of the same callers, the table of open files, and how
/// often the tables changed in a way that another call could see. A contract sees `LiveTables`.
pub struct Tables {
    sessions: Sessions,
    saved: Sessions,
    opens: Opens,
    stamp: u64,
}

// written out, so that a crate above which lets tables go checks one call
impl Drop for Tables {
    fn drop(self) {
        let Tables {
            sessions: _,
            saved: _,
            opens: _,
            stamp: _,
        } = self;
    }
}

impl Model for Tables {
    ghost use Rattle.std.specs.Prelude.{length, ◌≡◌};
    ghost use Rattle.std.specs.Coded.{codes, coded_ℕ};
    ghost use Rattle.std.specs.FinMap as fin;
    ghost use Rattle.std.specs.Ordering.{nat_cmp};
    ghost use Rattle.mb_tree.specs.contracts.seats.PlainFile as file;
    ghost use Rattle.mb_core_spec.specs.Copies.{LiveTables};

    ghost Value = { LiveTables };

    ghost coded = { Prim.hlevel (codes, fin.code {R = nat_cmp} coded_ℕ coded_ℕ, fin.code {R = nat_cmp} coded_ℕ file.the_row.coded) };

    ghost view = { λ t. record { sessions = t.sessions; saved = t.saved; opens = t.opens; stamp = t.stamp } };

    ghost invariant = { λ t. length t.sessions ≡ length t.saved };
}

impl Tables {
    /// A session for each of the callers as it begins, saved as it is, no open file, and the stamp 0. The only error is
    /// want of memory.
    pub fn new(alloc: Global, callers: &Creds) -> Result<Tables, NoMemory>
        ensures { IfOk result (λ tables. tables ≡ first_tables callers.now fin.empty) }
    {
        let sessions = Sessions::new(alloc, callers)?;
        let saved = sessions.copy(alloc)?;
        Ok(Tables {
            sessions,
            saved,
            opens: Opens::new(alloc),
            stamp: 0,
        })
    }

    /// The callers' sessions.
    pub fn sessions(&self) -> &Sessions
        ensures { result.now ≡ self.now.sessions }
    {
        &self.sessions
    }

    /// The sessions as they were at the last checkpoint.
    pub fn saved(&self) -> &Sessions
        ensures { result.now ≡ self.now.saved }
    {
        &self.saved
    }

    /// The table of open files.
    pub fn opens(&self) -> &Opens
        ensures { result.now ≡ self.now.opens }
    {
        &self.opens
    }

    /// How often the tables changed in a way that another call could see.
    pub fn stamp(&self) -> u64
        ensures { result ≡ self.now.stamp }
    {
        self.stamp
    }

    /// What a call that is logged makes of the tables: its session changes, the counts of open files follow its operation,
    /// and the stamp rises by one where the operation is a `Create`, an `Empty`, a `Hold` or a `Release`, or the change is
    /// of the current directory. A count of 2^32 - 1 stays. The only error is want of memory; the tables are then as
    /// before.
    pub fn log(
        &mut self,
        caller: u8,
        op: &Option<FsOp>,
        pick: Option<u16>,
        change: SessionChange,
    ) -> Result<(), NoMemory>
        requires caller { caller < length self.old.sessions }
        requires ready { HasDescriptorInRange change }
        requires few { self.old.stamp < 2 ^ 64 - 1 }
        ensures ok { OnOk result (self.new ≡ tables_after self.old caller op.now pick change) }
        ensures err { OnErr result (self.new ≡ self.old) }
    {
        follow_if(&mut self.opens, op, pick)?;
        if is_seen(op, &change) {
            self.stamp += 1;
        }
        self.sessions.apply(caller, change);
        Ok(())
    }

    /// The counts of open files follow an operation that is done again; nothing else changes. The only error is want of
    /// memory; the tables are then as before.
    pub fn redo(&mut self, op: &FsOp, pick: Option<u16>) -> Result<(), NoMemory>
        ensures ok { OnOk result (self.new ≡ record self.old { opens = followed self.old.opens op.now pick }) }
        ensures err { OnErr result (self.new ≡ self.old) }
    {
        follow(&mut self.opens, op, pick)
    }

    /// The table of open files becomes that of the saved sessions. The only error is want of memory; the tables are then
    /// as before.
    pub fn reopen(&mut self, alloc: Global) -> Result<(), NoMemory>
        ensures same { self.new ≡ record self.old { opens = self.new.opens } }
        ensures ok { OnOk result (TellsCounts self.new.opens (counts self.old.saved)) }
        ensures err { OnErr result (self.new ≡ self.old) }
    {
        self.opens = self.saved.counts(alloc)?;
        Ok(())
    }

    /// The sessions are saved as they are; needs no memory.
    pub fn seal(&mut self)
        ensures { self.new ≡ record self.old { saved = self.old.sessions } }
    {
        self.saved.take_over(&self.sessions);
    }

    /// Does the strokes of a fault to the counts of open files, and changes no stamp. Needs no memory.
    pub fn damage(&mut self, damage: &Damage)
        ensures { self.new ≡ record self.old { opens = counts_damaged self.old.opens damage.now } }
    {
        damage_counts(&mut self.opens, damage);
    }
}
