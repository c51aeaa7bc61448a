//! Where a server's workers post what comes over connections.

ghost use Rattle.std.specs.Prelude.{◌≡◌, None};

use crate::desk::Desk;
use mls_base::clock::Clock;
use mls_base::faults::{NoMemory, fail};
use mls_base::outside::Keeper;
use mls_book::BookFault;
use mls_frame::FrameView;
use mls_held::Run;
use mls_model::lanes::LaneKind;
use mls_serve::{LaneFault, Note, Post};
use std::alloc::Global;
use std::sync::Wait;

/// A worker's way to the desk: frames go to the books of their ranks, and notes to the watch. It tells nothing.
#[derive(Drop)]
pub struct DeskPost<'a, W: Wait, K: Keeper + Drop, C: Clock + Drop, N: Run> {
    rt: &'a W,
    desk: &'a Desk<K, C, N>,
    faults: u64,
}

impl<'a, W: Wait, K: Keeper + Drop, C: Clock + Drop, N: Run> DeskPost<'a, W, K, C, N> {
    /// A way to the desk on which no offer ended with a store fault yet.
    pub fn new(rt: &'a W, desk: &'a Desk<K, C, N>) -> DeskPost<'a, W, K, C, N>
        ensures ranks { ⟦<DeskPost<'a, W, K, C, N> as Post>⟧.ranks result ≡ desk.now.sizes.ranks }
        ensures lanes { ⟦<DeskPost<'a, W, K, C, N> as Post>⟧.lanes result ≡ desk.now.lanes }
        ensures faults { ⟦<DeskPost<'a, W, K, C, N> as Post>⟧.faults result ≡ 0 }
        ensures told { ⟦<DeskPost<'a, W, K, C, N> as Post>⟧.told result ≡ None }
    {
        DeskPost {
            rt,
            desk,
            faults: 0,
        }
    }
}

impl<'a, W: Wait, K: Keeper + Drop, C: Clock + Drop, N: Run> Post for DeskPost<'a, W, K, C, N> {
    ghost ranks = { λ p. p.desk.now.sizes.ranks };

    ghost lanes = { λ p. p.desk.now.lanes };

    ghost faults = { λ p. p.faults };

    ghost told = { λ p. None };

    fn offer(
        &mut self,
        alloc: Global,
        rank: u32,
        lane: u32,
        kind: LaneKind,
        view: &FrameView<'_>,
    ) -> Result<(), LaneFault> {
        match self.desk.offer(self.rt, alloc, rank, lane, kind, view) {
            Ok(()) => Ok(()),
            Err(BookFault::Memory) => Err(LaneFault {
                rank,
                fault: BookFault::Memory,
            }),
            Err(fault) => fail(&mut self.faults, LaneFault { rank, fault }),
        }
    }

    fn note(&mut self, _alloc: Global, note: Note) -> Result<(), NoMemory> {
        self.desk.hear(self.rt, note)
    }
}
