//! A polled door in memory. Its ready accepts are numbered from 0, and the numbers in `fails` are those that are to
//! fail. No other accept fails, but one where no link is left, and one after 2^64 - 1 links. An accept is pending as
//! often as is told beforehand, and yields each time.

ghost use Rattle.std.specs.Prelude.{IsTrue};
ghost use Rattle.std.specs.List.{list_all};
ghost use Rattle.mls_poll.specs.MemPolls.{is_unused};

use crate::mem_link::MemPollLink;
use crate::outside::PollDoor;
use crate::waits::Waits;
use futures::task::{Context, Poll};
use mls_base::calls::Calls;
use mls_base::faults::{Failed, fail};

/// A polled door in memory that hands out its links in turn.
#[derive(Drop)]
pub struct MemPollDoor {
    links: Vec<MemPollLink>,
    calls: Calls,
    faults: u64,
    /// How many links were handed out.
    accepts: u64,
    waits: Waits,
    /// How many accepts were pending.
    pending: u64,
    ghost unused: { IsTrue (list_all is_unused links.items) },
}

impl MemPollDoor {
    ghost use Rattle.std.specs.Prelude.{◌≡◌, ◌+◌, ◌||◌, ◌==◌, ◌∷◌, length, is_err, IsTrue, IfOk, OnOk, OnErr};
    ghost use Rattle.std.specs.List.{list_all};
    ghost use Rattle.mls_base.specs.Told.{Rose, last_count};
    ghost use Rattle.mls_base.specs.Calls.{next_fails, Counted};
    ghost use Rattle.mls_poll.specs.Waiting.{AreWaits};
    ghost use Rattle.mls_poll.specs.MemPolls.{is_unused};

    /// A door with these links, on which no call was made yet. Before its i-th ready accept it is pending `waits[i]`
    /// times, and 0 times where there is no such number.
    pub fn new(links: Vec<MemPollLink>, waits: Vec<u32>, fails: Vec<u64>) -> MemPollDoor
        requires { IsTrue (list_all is_unused links.items) }
        ensures links { result.links ≡ links }
        ensures faults { result.faults ≡ 0 }
        ensures accepts { result.accepts ≡ 0 }
        ensures calls { (result.calls.made ≡ 0) × (result.calls.fails ≡ fails) }
        ensures waits { AreWaits waits.items result.waits × (result.pending ≡ 0) }
    {
        MemPollDoor {
            links,
            calls: Calls::new(fails),
            faults: 0,
            accepts: 0,
            waits: Waits::new(waits),
            pending: 0,
        }
    }

    /// A ready accept. It fails exactly where it is to fail, no link is left, or as many were handed out as can be
    /// counted.
    fn accept(&mut self) -> Result<MemPollLink, Failed>
        ensures fails { is_err result ≡ (next_fails self.old.calls || ((length self.old.links.items == 0) || (last_count == self.old.accepts))) }
        ensures first { IfOk result (λ link. self.old.links.items ≡ link ∷ self.new.links.items) }
        ensures left { OnErr result (self.new.links ≡ self.old.links) }
        ensures counted { Counted self.old.calls self.new.calls }
        ensures unused { IfOk result (λ link. IsTrue (is_unused link)) }
        ensures more { OnOk result (self.new.accepts ≡ self.old.accepts + 1) }
        ensures no_more { OnErr result (self.new.accepts ≡ self.old.accepts) }
        ensures waits { self.new.waits ≡ self.old.waits }
        ensures pending { self.new.pending ≡ self.old.pending }
        ensures faultless { OnOk result (self.new.faults ≡ self.old.faults) }
        ensures rose { OnErr result (Rose self.old.faults self.new.faults) }
    {
        if self.calls.is_next_to_fail() || self.links.is_empty() || self.accepts == u64::MAX {
            return fail(&mut self.faults, Failed);
        }
        self.accepts += 1;
        Ok(self.links.remove(0))
    }
}

impl PollDoor for MemPollDoor {
    type L = MemPollLink;

    ghost use Rattle.std.specs.Prelude.{◌≡◌, ◌||◌, ◌==◌, ◌∷◌, ◌↔◌, length, is_err, IsTrue};
    ghost use Rattle.futures.specs.Poll.{IfReady, OnPending};
    ghost use Rattle.futures.specs.declared.task.Poll.TheVariants.{Pending};
    ghost use Rattle.mls_base.specs.Calls.{next_fails, Counted};
    ghost use Rattle.mls_base.specs.Told.{last_count};
    ghost use Rattle.futures.specs.Task.{Covers, Keeps};
    ghost use Rattle.mls_poll.specs.Polls.{IfGiven, OnFailed, CountsFault, CountsWait, CountsAccept};
    ghost use Rattle.mls_poll.specs.MemPolls.{is_unused};
    ghost use Rattle.mls_poll.specs.Waiting.{is_waiting, AfterWait};

    ghost faults = { λ door. door.faults };

    ghost waits = { λ door. door.pending };

    ghost accepts = { λ door. door.accepts };

    ghost acceptable = { λ _. 0 };

    /// It is pending exactly where it is to wait. Else it fails exactly where it is to fail, no link is left, or as
    /// many were handed out as can be counted, and gives the first link that is left.
    fn poll_accept(&mut self, cx: &mut Context<'_>) -> Poll<Result<MemPollLink, Failed>>
        ensures pends { IsTrue (is_waiting self.old.waits) ↔ (result ≡ Pending) }
        ensures waited { AfterWait (is_waiting self.old.waits) self.old.waits self.new.waits }
        ensures fails { IfReady result (λ answer. is_err answer ≡ (next_fails self.old.calls || ((length self.old.links.items == 0) || (last_count == self.old.accepts)))) }
        ensures first { IfGiven result (λ link. self.old.links.items ≡ link ∷ self.new.links.items) }
        ensures left { OnFailed result (self.new.links ≡ self.old.links) }
        ensures none { OnPending result (self.new.links ≡ self.old.links) }
        ensures counted { IfReady result (λ _. Counted self.old.calls self.new.calls) }
        ensures uncounted { OnPending result (self.new.calls ≡ self.old.calls) }
        ensures unused { IfGiven result (λ link. IsTrue (is_unused link)) }
        ensures accepts { CountsAccept result self.old.accepts self.new.accepts }
        ensures faults { CountsFault result self.old.faults self.new.faults }
        ensures waits { CountsWait result self.old.pending self.new.pending }
        ensures registered { OnPending result (Covers cx.new (λ source. source ≡ 0)) }
        ensures kept { Keeps cx.old cx.new }
    {
        if self.waits.is_to_wait() {
            self.pending = self.pending.saturating_add(1);
            return cx.yield_now();
        }
        Poll::Ready(self.accept())
    }
}
