//! A post in memory. Its offers are numbered from 0, and the numbers in `fails` are those that are to fail. No other
//! offer answers a store fault.

ghost use Rattle.std.specs.Prelude.{◌≡◌, map};
ghost use Rattle.mls_serve.specs.MemPosts.{posts_of, spelled};

use crate::owning::owned;
use crate::post::{Note, Post};
use crate::served::LaneFault;
use mls_base::calls::Calls;
use mls_base::faults::NoMemory;
use mls_book::BookFault;
use mls_frame::{Frame, FrameView, put};
use mls_model::lanes::LaneKind;
use std::alloc::Global;

/// What a post in memory was given.
#[derive(Drop)]
pub enum MemPosted {
    /// A frame of a lane, offered to a rank.
    Offered {
        rank: u32,
        lane: u32,
        kind: LaneKind,
        frame: Frame,
    },
    /// A note for the watch.
    Noted(Note),
}

/// A post in memory that tells its posts.
#[derive(Drop)]
pub struct MemPost {
    ranks: u32,
    lanes: u32,
    posts: Vec<MemPosted>,
    bytes: Vec<u8>,
    calls: Calls,
    faults: u64,
    ghost spells: { bytes.items ≡ spelled (posts_of posts.items) },
}

impl MemPost {
    ghost use Rattle.std.specs.Prelude.{◌≡◌, [], Some, IsSomeAnd, OnOk, OnErr, ◌++◌, ◌∷◌};
    ghost use Rattle.mls_frame.specs.Owned.{owned_frame};
    ghost use Rattle.mls_serve.specs.Posts.{offered};

    /// A post for so many ranks and lanes, to which nothing was posted yet.
    pub fn new(alloc: Global, ranks: u32, lanes: u32, fails: Vec<u64>) -> MemPost
        ensures ranks { ⟦<MemPost as Post>⟧.ranks result ≡ ranks }
        ensures lanes { ⟦<MemPost as Post>⟧.lanes result ≡ lanes }
        ensures told { ⟦<MemPost as Post>⟧.told result ≡ Some [] }
        ensures faults { ⟦<MemPost as Post>⟧.faults result ≡ 0 }
        ensures calls { (result.calls.made ≡ 0) × (result.calls.fails ≡ fails) }
    {
        MemPost {
            ranks,
            lanes,
            posts: Vec::new(alloc),
            bytes: Vec::new(alloc),
            calls: Calls::new(fails),
            faults: 0,
        }
    }

    /// The joined spellings of the frames that were offered.
    pub fn spelled(&self) -> &[u8]
        ensures { IsSomeAnd (⟦<MemPost as Post>⟧.told self.now) (λ posts. result.now ≡ spelled posts) }
    {
        self.bytes.as_slice()
    }

    /// Keeps an offer. After want of memory the post is as before.
    fn keep(&mut self, rank: u32, lane: u32, kind: LaneKind, frame: Frame) -> Result<(), NoMemory>
        ensures posted { OnOk result (posts_of self.new.posts.items ≡ posts_of self.old.posts.items ++ offered rank lane kind (owned_frame frame) ∷ []) }
        ensures kept { OnErr result (self.new.posts.items ≡ self.old.posts.items) }
        ensures ranks { self.new.ranks ≡ self.old.ranks }
        ensures lanes { self.new.lanes ≡ self.old.lanes }
        ensures faults { self.new.faults ≡ self.old.faults }
        ensures calls { self.new.calls ≡ self.old.calls }
    {
        self.posts.reserve(1)?;
        put(&frame, &mut self.bytes)?;
        self.posts.push_reserved(MemPosted::Offered {
            rank,
            lane,
            kind,
            frame,
        });
        Ok(())
    }
}

impl Post for MemPost {
    ghost use Rattle.std.specs.Prelude.{◌≡◌, ◌<◌, [], ◌∷◌, false, Some, OnOk, OnErr, IfErr};
    ghost use Rattle.mls_base.specs.Calls.{next_fails, Counted};
    ghost use Rattle.mls_frame.specs.Views.{frame_of};
    ghost use Rattle.mls_serve.specs.Posts.{offered, noted, posted, CountsPost};
    ghost use Rattle.mls_serve.specs.MemPosts.{FailsAsDue};

    ghost ranks = { λ p. p.ranks };

    ghost lanes = { λ p. p.lanes };

    ghost faults = { λ p. p.faults };

    ghost told = { λ p. Some (posts_of p.posts.items) };

    /// It answers a store fault exactly where it is to fail.
    fn offer(
        &mut self,
        alloc: Global,
        rank: u32,
        lane: u32,
        kind: LaneKind,
        view: &FrameView<'_>,
    ) -> Result<(), LaneFault>
        requires rank_in { rank < self.old.ranks }
        requires lane_in { lane < self.old.lanes }
        ensures due { OnOk result (next_fails self.old.calls ≡ false) }
        ensures undue { IfErr result (λ fault. FailsAsDue fault.fault (next_fails self.old.calls)) }
        ensures counted { Counted self.old.calls self.new.calls }
        ensures posted { OnOk result (Some (posts_of self.new.posts.items) ≡ posted (Some (posts_of self.old.posts.items)) (offered rank lane kind (frame_of view.now) ∷ [])) }
        ensures kept { OnErr result (Some (posts_of self.new.posts.items) ≡ Some (posts_of self.old.posts.items)) }
        ensures named { IfErr result (λ fault. fault.rank ≡ rank) }
        ensures faults { CountsPost result self.old.faults self.new.faults }
        ensures ranks { self.new.ranks ≡ self.old.ranks }
        ensures lanes { self.new.lanes ≡ self.old.lanes }
    {
        if self.calls.is_next_to_fail() {
            self.faults = self.faults.saturating_add(1);
            return Err(LaneFault {
                rank,
                fault: BookFault::KeeperFault,
            });
        }
        let kept = match owned(alloc, view) {
            Ok(frame) => self.keep(rank, lane, kind, frame),
            Err(fault) => Err(fault),
        };
        match kept {
            Ok(()) => Ok(()),
            Err(NoMemory) => Err(LaneFault {
                rank,
                fault: BookFault::Memory,
            }),
        }
    }

    fn note(&mut self, _alloc: Global, note: Note) -> Result<(), NoMemory>
        ensures counted { self.new.calls ≡ self.old.calls }
        ensures posted { OnOk result (Some (posts_of self.new.posts.items) ≡ posted (Some (posts_of self.old.posts.items)) (noted note ∷ [])) }
        ensures kept { OnErr result (Some (posts_of self.new.posts.items) ≡ Some (posts_of self.old.posts.items)) }
        ensures faults { self.new.faults ≡ self.old.faults }
        ensures ranks { self.new.ranks ≡ self.old.ranks }
        ensures lanes { self.new.lanes ≡ self.old.lanes }
    {
        self.posts.push(MemPosted::Noted(note))?;
        Ok(())
    }
}
