//! A world in memory, which tells its log, and of which chosen calls fail.
ghost use Rattle.std.specs.Prelude.{◌≡◌, ◌++◌, ◌∷◌, [], Some, IfOk, OnErr, OnOk, drop};
ghost use Rattle.outside_world.specs.declared.world.WorldEntry.TheVariants.{Came};
ghost use Rattle.sp_outside.specs.Causes.{next};
ghost use Rattle.sp_outside.specs.Memory.{fails_next};
ghost use Rattle.outside_world.specs.Worlds.{IsNewsTo, told_after_send, told_came, told_shut};
ghost use Rattle.outside_world.specs.Comings.{MayCome};
ghost use Rattle.outside_world.specs.Faults.{HasNextCause, HasSendCause};
ghost use Rattle.outside_world.specs.WorldMemory.{IsSendListed, first_coming, has_next_failed, next_after, send_after, shut_after, fresh_world};

use crate::coming::Coming;
use crate::{Happening, HappeningList, SendFault, Work, World, WorldEntry, WorldFault, WorldLog};
use connection_ids::ConnectionId;
use sp_base::{ByteBuf, CallList, Mem};
use std::alloc::Global;
use std::marker::Model;

/// Clients in memory. The calls of `next` are counted from 1, and so are those that send; exactly those in the lists fail. The counts
/// stand still at their type's end.
#[derive(Drop)]
pub struct MemWorld {
    coming: Coming,
    log: WorldLog,
    next_fails: CallList,
    next_calls: u64,
    next_failed: u64,
    send_fails: CallList,
    send_calls: u64,
    send_failed: u64,
}

impl Model for MemWorld {
    ghost use Rattle.outside_world.specs.Comings.{MayComeAfter, news_of};
    ghost use Rattle.outside_world.specs.WorldMemory.{WorldState};

    ghost Value = { WorldState };

    ghost view = { λ w. record {
      coming = w.coming;
      log = w.log;
      next_fails = w.next_fails;
      next_calls = w.next_calls;
      next_failed = w.next_failed;
      send_fails = w.send_fails;
      send_calls = w.send_calls;
      send_failed = w.send_failed;
    } };

    ghost invariant = { λ w. MayComeAfter (news_of w.log) w.coming };
}

impl MemWorld {
    /// Gives its happenings, and then `Quiet`.
    pub fn new(
        alloc: Global,
        happenings: HappeningList,
        next_fails: CallList,
        send_fails: CallList,
    ) -> MemWorld
        requires { MayCome happenings }
        ensures { result ≡ fresh_world happenings next_fails send_fails }
    {
        MemWorld {
            coming: Coming::new(happenings),
            log: WorldLog::new(alloc),
            next_fails,
            next_calls: 0,
            next_failed: 0,
            send_fails,
            send_calls: 0,
            send_failed: 0,
        }
    }

    pub fn log(&self) -> &WorldLog
        ensures { result.now ≡ self.now.log }
    {
        &self.log
    }
}

impl MemWorld {
    // Takes what comes next, and adds it to the log.
    fn take(&mut self, alloc: Global) -> Mem<Happening>
        ensures given { IfOk result (λ happening. happening ≡ first_coming self.old.coming) }
        ensures news { IfOk result (λ happening. IsNewsTo (Some self.old.log) happening) }
        ensures ok { IfOk result (λ happening. self.new ≡ record self.old { coming = drop 1 self.old.coming; log = self.old.log ++ Came happening ∷ [] }) }
        ensures err { OnErr result (self.new ≡ self.old) }
    {
        let happening = self.coming.first(alloc)?;
        let told = happening.duplicate(alloc)?;
        self.log.push(WorldEntry::Came(told))?;
        self.coming.pass();
        Ok(happening)
    }

    // Counts a call that sends. Where it is listed, it has failed.
    fn begin_sending(&mut self, conn: ConnectionId) -> Result<(), SendFault>
        ensures listed { IsSendListed (fails_next self.old.send_fails self.old.send_calls) result }
        ensures ok { OnOk result (self.new ≡ record self.old { send_calls = next self.old.send_calls }) }
        ensures err { OnErr result (self.new ≡ send_after self.old conn [] result) }
        ensures cause { HasSendCause self.old.send_failed self.new.send_failed result }
    {
        self.send_calls = self.send_calls.saturating_add(1);
        if self.send_fails.as_slice().contains(&self.send_calls) {
            self.log.push(WorldEntry::Unsent(conn))?;
            self.send_failed = self.send_failed.saturating_add(1);
            return Err(SendFault::Failed);
        }
        Ok(())
    }
}

impl World for MemWorld {
    ghost next_faults = { λ w. w.next_failed };

    ghost send_faults = { λ w. w.send_failed };

    ghost log = { λ w. Some w.log };

    fn expect(&mut self, _work: Work)
        ensures after { self.new ≡ self.old }

        // What every world promises.
        ensures same { Some self.new.log ≡ Some self.old.log }
        ensures next_count { self.new.next_failed ≡ self.old.next_failed }
        ensures send_count { self.new.send_failed ≡ self.old.send_failed }
    {}

    fn next(&mut self, alloc: Global) -> Result<Happening, WorldFault>
        ensures fails { has_next_failed result ≡ fails_next self.old.next_fails self.old.next_calls }
        ensures given { IfOk result (λ happening. happening ≡ first_coming self.old.coming) }
        ensures after { self.new ≡ next_after self.old result }

        // What every world promises.
        ensures news { IfOk result (λ happening. IsNewsTo (Some self.old.log) happening) }
        ensures ok { IfOk result (λ happening. Some self.new.log ≡ told_came (Some self.old.log) happening) }
        ensures err { OnErr result (Some self.new.log ≡ Some self.old.log) }
        ensures cause { HasNextCause self.old.next_failed self.new.next_failed result }
        ensures send_count { self.new.send_failed ≡ self.old.send_failed }
    {
        self.next_calls = self.next_calls.saturating_add(1);
        if self.next_fails.as_slice().contains(&self.next_calls) {
            self.next_failed = self.next_failed.saturating_add(1);
            return Err(WorldFault::Failed);
        }
        Ok(self.take(alloc)?)
    }

    fn send(&mut self, alloc: Global, conn: ConnectionId, bytes: &[u8]) -> Result<(), SendFault>
        ensures listed { IsSendListed (fails_next self.old.send_fails self.old.send_calls) result }
        ensures told { self.new ≡ send_after self.old conn bytes.now result }

        // What every world promises.
        ensures after { Some self.new.log ≡ told_after_send (Some self.old.log) conn bytes.now result }
        ensures cause { HasSendCause self.old.send_failed self.new.send_failed result }
        ensures next_count { self.new.next_failed ≡ self.old.next_failed }
    {
        self.begin_sending(conn)?;
        let bytes = ByteBuf::of(alloc, bytes)?;
        self.log.push(WorldEntry::Sent(conn, bytes))?;
        Ok(())
    }

    fn send_both(
        &mut self,
        alloc: Global,
        conn: ConnectionId,
        head: &[u8],
        body: &[u8],
    ) -> Result<(), SendFault>
        ensures listed { IsSendListed (fails_next self.old.send_fails self.old.send_calls) result }
        ensures told { self.new ≡ send_after self.old conn (head.now ++ body.now) result }

        // What every world promises.
        ensures after { Some self.new.log ≡ told_after_send (Some self.old.log) conn (head.now ++ body.now) result }
        ensures cause { HasSendCause self.old.send_failed self.new.send_failed result }
        ensures next_count { self.new.next_failed ≡ self.old.next_failed }
    {
        self.begin_sending(conn)?;
        let mut bytes = Vec::from_slice(alloc, head)?;
        bytes.extend_from_slice(body)?;
        self.log.push(WorldEntry::Sent(conn, ByteBuf::from(bytes)))?;
        Ok(())
    }

    fn shut(&mut self, conn: ConnectionId)
        ensures told { self.new ≡ shut_after self.old conn }

        // What every world promises.
        ensures after { Some self.new.log ≡ told_shut (Some self.old.log) conn }
        ensures next_count { self.new.next_failed ≡ self.old.next_failed }
        ensures send_count { self.new.send_failed ≡ self.old.send_failed }
    {
        self.log.shut(conn);
    }
}
