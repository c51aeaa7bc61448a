//! A door in memory. Its calls but `close` are numbered from 0, and the numbers in `fails` are those that are to
//! fail. No other call fails, but an accept or connect where no link is left, and an accept after 2^64 - 1 of them.

ghost use Rattle.std.specs.Prelude.{IsTrue};
ghost use Rattle.std.specs.List.{list_all};
ghost use Rattle.mls_wire.specs.MemLinks.{is_unused};

use crate::mem_link::MemLink;
use crate::outside::Door;
use mls_base::calls::Calls;
use mls_base::faults::{Failed, NoMemory, fail};
use std::alloc::Global;

/// A door in memory that hands out its links in turn, to accept and to connect alike.
#[derive(Drop)]
pub struct MemDoor {
    links: Vec<MemLink>,
    closed: Vec<MemLink>,
    calls: Calls,
    faults: u64,
    accepts: u64,
    link_faults: u64,
    ghost unused: { IsTrue (list_all is_unused links.items) },
}

impl MemDoor {
    ghost use Rattle.std.specs.Prelude.{◌≡◌, ◌||◌, ◌==◌, ◌≤◌, length, [], ◌∷◌, Some, map, if◌then◌else◌, is_err, IsTrue, IfOk, OnOk, OnErr};
    ghost use Rattle.std.specs.List.{list_all};
    ghost use Rattle.mls_base.specs.Told.{Rose, StaysSound};
    ghost use Rattle.mls_base.specs.Calls.{are_none, next_fails, none_ahead, Counted};
    ghost use Rattle.mls_wire.specs.Doors.{HandsOut};
    ghost use Rattle.mls_wire.specs.MemLinks.{is_unused, closed_of, awaited_of, sure_of};
    ghost use Rattle.mls_wire.specs.MemDoors.{awaited_at};

    /// A door with these links, on which no call was made yet. No link was closed.
    pub fn new(alloc: Global, links: Vec<MemLink>, fails: Vec<u64>) -> MemDoor
        requires { IsTrue (list_all is_unused links.items) }
        ensures links { result.links ≡ links }
        ensures closed { ⟦<MemDoor as Door>⟧.closed result ≡ Some [] }
        ensures faults { ⟦<MemDoor as Door>⟧.faults result ≡ 0 }
        ensures accepts { ⟦<MemDoor as Door>⟧.accepts result ≡ 0 }
        ensures link_faults { ⟦<MemDoor as Door>⟧.link_faults result ≡ 0 }
        ensures sound { ⟦<MemDoor as Door>⟧.sound result ≡ are_none fails.items }
        ensures awaited { awaited_at result ≡ (if are_none fails.items then map awaited_of links.items else []) }
        ensures calls { (result.calls.made ≡ 0) × (result.calls.fails ≡ fails) }
    {
        MemDoor {
            links,
            closed: Vec::new(alloc),
            calls: Calls::new(fails),
            faults: 0,
            accepts: 0,
            link_faults: 0,
        }
    }

    /// The links that were closed, in order.
    pub fn closed(&self) -> &[MemLink]
        ensures { ⟦<MemDoor as Door>⟧.closed self.now ≡ Some (map closed_of result.now) }
    {
        self.closed.as_slice()
    }

    /// The next link. It fails exactly where the call is to fail or no link is left.
    fn hand_out(&mut self) -> Result<MemLink, Failed>
        ensures fails { is_err result ≡ (next_fails self.old.calls || (length self.old.links.items == 0)) }
        ensures first { IfOk result (λ link. self.old.links.items ≡ link ∷ self.new.links.items) }
        ensures left { OnErr result (self.new.links ≡ self.old.links) }
        ensures counted { Counted self.old.calls self.new.calls }
        ensures unused { IfOk result (λ link. IsTrue (is_unused link)) }
        ensures awaited { IfOk result (λ link. HandsOut (awaited_at self.old) (awaited_at self.new) (none_ahead link.calls) (sure_of link)) }
        ensures surely { OnErr result (awaited_at self.old ≡ []) }
        ensures sound { StaysSound (none_ahead self.old.calls) (none_ahead self.new.calls) }
        ensures closed { self.new.closed ≡ self.old.closed }
        ensures accepts { self.new.accepts ≡ self.old.accepts }
        ensures link_faults { self.new.link_faults ≡ self.old.link_faults }
        ensures faultless { OnOk result (self.new.faults ≡ self.old.faults) }
        ensures rose { OnErr result (Rose self.old.faults self.new.faults) }
    {
        if self.calls.is_next_to_fail() || self.links.is_empty() {
            return fail(&mut self.faults, Failed);
        }
        Ok(self.links.remove(0))
    }
}

impl Door for MemDoor {
    type L = MemLink;

    ghost use Rattle.std.specs.Prelude.{◌≡◌, ◌+◌, ◌<◌, ◌||◌, ◌++◌, ◌∷◌, [], ◌==◌, length, map, false, Some, is_err, IfOk, OnOk, OnErr, MatchResult};
    ghost use Rattle.mls_base.specs.Told.{Rose, StaysSound, last_count};
    ghost use Rattle.mls_base.specs.Calls.{next_fails, none_ahead, Counted};
    ghost use Rattle.mls_wire.specs.Doors.{StaysAwaited, HandsOut, after_fault};
    ghost use Rattle.mls_wire.specs.Links.{IsFresh};
    ghost use Rattle.mls_wire.specs.MemLinks.{closed_of, sure_of};
    ghost use Rattle.mls_wire.specs.MemDoors.{awaited_at};

    ghost faults = { λ d. d.faults };

    ghost accepts = { λ d. d.accepts };

    ghost link_faults = { λ d. d.link_faults };

    ghost closed = { λ d. Some (map closed_of d.closed.items) };

    ghost sound = { λ d. none_ahead d.calls };

    ghost awaited = { λ d. awaited_at d };

    /// It fails exactly where it is to fail, and does nothing.
    fn listen(&mut self, _addr: &str) -> Result<(), Failed>
        ensures fails { is_err result ≡ next_fails self.old.calls }
        ensures counted { Counted self.old.calls self.new.calls }
        ensures links { self.new.links ≡ self.old.links }
        ensures sound { StaysSound (none_ahead self.old.calls) (none_ahead self.new.calls) }
        ensures surely { OnErr result (none_ahead self.old.calls ≡ false) }
        ensures awaited { StaysAwaited (awaited_at self.old) (awaited_at self.new) }
        ensures accepts { self.new.accepts ≡ self.old.accepts }
        ensures link_faults { self.new.link_faults ≡ self.old.link_faults }
        ensures closed { self.new.closed ≡ self.old.closed }
        ensures faultless { OnOk result (self.new.faults ≡ self.old.faults) }
        ensures rose { OnErr result (Rose self.old.faults self.new.faults) }
    {
        if self.calls.is_next_to_fail() {
            return fail(&mut self.faults, Failed);
        }
        Ok(())
    }

    fn accept(&mut self) -> Result<MemLink, Failed> {
        if self.accepts == u64::MAX {
            return fail(&mut self.faults, Failed);
        }
        let link = self.hand_out()?;
        self.accepts += 1;
        Ok(link)
    }

    fn connect(&mut self, _addr: &str) -> Result<MemLink, Failed> {
        self.hand_out()
    }

    fn close(&mut self, _alloc: Global, link: MemLink) -> Result<(), NoMemory> {
        let faults = link.faults();
        self.closed.push(link)?;
        if faults > 0 {
            self.link_faults = self.link_faults.saturating_add(1);
        }
        Ok(())
    }
}
