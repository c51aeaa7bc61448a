//! The pending pieces of a rank.

ghost use Rattle.std.specs.Prelude.{◌≡◌, ◌≢◌, ◌==◌, ◌&&◌, ℕ, ◌<◌, cond, is_some, IfOk, OnOk, OnErr, IfSome, ◌⊎◌, Some, None, IsSome, IsTrue, ◌↔◌, List, [], ◌++◌, true, false};
ghost use Rattle.std.specs.Option.{option_map};
ghost use Rattle.mls_model.specs.Studies.{planes};
ghost use Rattle.mls_model.specs.Blocks.{block, width};
ghost use Rattle.mls_model.specs.Frames.{Piece};
ghost use Rattle.mls_model.specs.Fitting.{piece_reason};
ghost use Rattle.mls_frame.specs.Views.{piece_of};
ghost use Rattle.mls_model.specs.Completion.{Key, key_of, is_completed};
ghost use Rattle.mls_assembly.specs.Shares.{share_of, IsShare, has_all};
ghost use Rattle.mls_assembly.specs.KeyShares.{share_in};
ghost use Rattle.mls_assembly.specs.Pendings.{Pends, PendsBut};
ghost use Rattle.mls_assembly.specs.Held.{Held, key_at, kept_of, life_of, share_at, ArePending, AreRising, KeepsOthers, AreWhole, DropsCompleted};
ghost use Rattle.mls_assembly.specs.Offered.{IsPartial, Covers, IsOffered, Stores, StoresKept, StoresComplete, Unchanged};
ghost use Rattle.mls_assembly.specs.Lent.{sizes_of, rank_of, shares_of};
ghost use Rattle.mls_ckpt.specs.Spellings.{pending_text};
ghost use Rattle.mls_assembly.specs.Saved.{keys_saved, TakesKey};
ghost use Rattle.mls_assembly.specs.EntryLists.{AreBefore};
ghost use Rattle.mls_assembly.specs.Held.{IsPending, key_cmp};
ghost use Rattle.std.specs.BTreeMap.{insert_entry};
ghost use Rattle.mls_ckpt.specs.Checkpoints.{pending_at};
ghost use Rattle.mls_ckpt.specs.Checkpoints as checkpoints;
ghost use Rattle.mls_ckpt.specs.Places.{cursor_of};
ghost use Rattle.mls_ckpt.specs.Recovering.{Gives, Recovers};
ghost use Rattle.mls_ledger.specs.MarkRows.{rows_of};

use crate::assembled::Assembled;
use crate::group_step::GroupStep;
use crate::kept_piece::KeptPiece;
use crate::key_pieces::KeyPieces;
use crate::pending_rows::PendingRows;
use crate::recovering::{take_key, u32_of};
use crate::saving::put_key;
use mls_base::faults::NoMemory;
use mls_base::rows::Rows;
use mls_base::shape::Shape;
use mls_ckpt::{Put, RecoverFault, Take};
use mls_frame::PieceView;
use mls_ledger::Marks;
use std::alloc::Global;
use std::collections::BTreeMap;
use std::marker::Model;

/// The pieces that wait at a rank for those of other clients: of each key that has some, those of its greatest life, the first of each client.
///
/// A step here is the number of a plane.
#[derive(Drop)]
pub struct Pending {
    alloc: Global,
    shape: Shape,
    rank: u32,
    keys: BTreeMap<GroupStep, KeyPieces>,
}

impl Model for Pending {
    ghost use Rattle.mls_assembly.specs.Held.{Held, ArePending};

    ghost Value = { Held };

    ghost view = { λ p. record { sizes = p.shape; rank = p.rank; entries = p.keys.entries } };

    ghost invariant = { λ p. ArePending (record { sizes = p.shape; rank = p.rank; entries = p.keys.entries }) };
}

/// The key of a piece.
fn key_of(piece: &PieceView<'_>) -> GroupStep
    ensures { key_at result ≡ key_of (piece_of piece.now) }
{
    GroupStep {
        group: piece.group(),
        step: piece.step(),
    }
}

impl Pending {
    /// Nothing is pending at a rank of a study.
    pub fn new(alloc: Global, shape: &Shape, rank: u32) -> Pending
        requires { rank < shape.now.ranks }
        ensures sizes { result.sizes ≡ shape.now }
        ensures rank { result.rank ≡ rank }
        ensures empty { (key : Key) → kept_of result key ≡ None }
        ensures none { result.entries ≡ [] }
    {
        Pending {
            alloc,
            shape: *shape,
            rank,
            keys: BTreeMap::new(alloc),
        }
    }

    /// Each key is one of the study, some client has a share of it, and each share is its client's. The keys rise by plane, then group.
    pub fn valid(&self)
        ensures pending { ArePending self.now }
        ensures rising { AreRising self.now }
    {
        let _keys = self.keys.len();
    }

    /// The life that is pending of a key.
    fn life(&self, key: GroupStep) -> Option<u32>
        ensures { result ≡ life_of self.now (key_at key) }
    {
        self.keys.get(&key).map(|pieces| pieces.life())
    }

    /// Whether a client's piece is pending of a key.
    fn has_piece(&self, key: GroupStep, client: u32) -> bool
        requires { client < self.now.sizes.clients }
        ensures { result ≡ is_some (share_at self.now (key_at key) client) }
    {
        match self.keys.get(&key) {
            Some(pieces) => pieces.piece(client).is_some(),
            None => false,
        }
    }

    /// Whether each client that overlaps the block has a piece of the key.
    fn is_whole(&self, key: GroupStep) -> bool
        requires { IsSome (kept_of self.now (key_at key)) }
        ensures { result ≡ has_all self.now.sizes self.now.rank (share_at self.now (key_at key)) }
    {
        for client in 0..self.shape.clients() {
            let overlap = self.shape.overlap(self.rank, client);
            if overlap.first < overlap.end && !self.has_piece(key, client) {
                return false;
            }
        }
        true
    }

    /// Puts a client's piece beside those of its key and life.
    fn put_piece(&mut self, key: GroupStep, client: u32, kept: KeptPiece)
        requires client { client < self.old.sizes.clients }
        requires fits { IsShare self.old.sizes self.old.rank client kept }
        requires held { IsSome (kept_of self.old (key_at key)) }
        ensures sizes { self.new.sizes ≡ self.old.sizes }
        ensures rank { self.new.rank ≡ self.old.rank }
        ensures life { life_of self.new (key_at key) ≡ life_of self.old (key_at key) }
        ensures shares { (c : ℕ)
            → share_at self.new (key_at key) c ≡ cond (c == client) (Some kept) (share_at self.old (key_at key) c) }
        ensures others { KeepsOthers self.old self.new (key_at key) }
    {
        if let Some(pieces) = self.keys.get_mut(&key) {
            pieces.put(client, kept);
        }
    }

    /// Begins a life of a key with a client's piece. Pieces of an earlier life are dropped.
    fn begin(
        &mut self,
        key: GroupStep,
        life: u32,
        client: u32,
        kept: KeptPiece,
    ) -> Result<(), NoMemory>
        requires group { key.group < self.old.sizes.groups }
        requires plane { key.step < planes self.old.sizes }
        requires client { client < self.old.sizes.clients }
        requires fits { IsShare self.old.sizes self.old.rank client kept }
        ensures sizes { self.new.sizes ≡ self.old.sizes }
        ensures rank { self.new.rank ≡ self.old.rank }
        ensures life { IfOk result (λ _. life_of self.new (key_at key) ≡ Some life) }
        ensures shares { IfOk result (λ _. (c : ℕ)
            → share_at self.new (key_at key) c ≡ cond (c == client) (Some kept) None) }
        ensures others { KeepsOthers self.old self.new (key_at key) }
        ensures err { OnErr result (self.new ≡ self.old) }
    {
        let pieces = KeyPieces::of(self.alloc, self.shape.clients(), life, client, kept)?;
        self.keys.insert(key, pieces)?;
        Ok(())
    }

    /// What a piece that was stored came to.
    fn kept_or_complete(&self, key: GroupStep) -> Assembled
        requires { IsSome (kept_of self.now (key_at key)) }
        ensures { result ≡ cond (has_all self.now.sizes self.now.rank (share_at self.now (key_at key))) Assembled.Complete Assembled.Kept }
    {
        if self.is_whole(key) {
            Assembled::Complete
        } else {
            Assembled::Kept
        }
    }

    /// Takes a piece of a life that is greater than the one that is pending of its key.
    fn start(&mut self, piece: &PieceView<'_>) -> Result<Assembled, NoMemory>
        requires fits { piece_reason self.old.sizes self.old.rank (piece_of piece.now) ≡ None }
        requires part { ((piece_of piece.now).count == width (block self.old.sizes self.old.rank)) ≡ false }
        requires newer { IfSome (life_of self.old (key_of (piece_of piece.now))) (λ life. life < (piece_of piece.now).life) }
        ensures offers { IfOk result (λ answer. IsOffered self.old self.new (piece_of piece.now) answer) }
        ensures sizes { self.new.sizes ≡ self.old.sizes }
        ensures rank { self.new.rank ≡ self.old.rank }
        ensures ready { OnOk result (IsSome (kept_of self.new (key_of (piece_of piece.now)))) }
        ensures kept { IfOk result (λ answer. (answer ≡ Assembled.Kept) ⊎ (answer ≡ Assembled.Complete)) }
        ensures stored { IfOk result (λ answer. Stores self.old self.new (piece_of piece.now) answer) }
        ensures others { KeepsOthers self.old self.new (key_of (piece_of piece.now)) }
        ensures err { OnErr result (self.new ≡ self.old) }
    {
        self.shape.valid();
        piece.valid();
        let key = key_of(piece);
        let kept = KeptPiece::of(self.alloc, piece)?;
        self.begin(key, piece.life(), piece.client() as u32, kept)?;
        Ok(self.kept_or_complete(key))
    }

    /// Takes a piece of the life that is pending of its key.
    fn join(&mut self, piece: &PieceView<'_>) -> Result<Assembled, NoMemory>
        requires fits { piece_reason self.old.sizes self.old.rank (piece_of piece.now) ≡ None }
        requires part { ((piece_of piece.now).count == width (block self.old.sizes self.old.rank)) ≡ false }
        requires same { life_of self.old (key_of (piece_of piece.now)) ≡ Some (piece_of piece.now).life }
        ensures offers { IfOk result (λ answer. IsOffered self.old self.new (piece_of piece.now) answer) }
        ensures sizes { self.new.sizes ≡ self.old.sizes }
        ensures rank { self.new.rank ≡ self.old.rank }
        ensures ready { OnOk result (IsSome (kept_of self.new (key_of (piece_of piece.now)))) }
        ensures kept { IfOk result (λ answer. StoresKept self.old self.new (piece_of piece.now) answer) }
        ensures complete { IfOk result (λ answer. StoresComplete self.old self.new (piece_of piece.now) answer) }
        ensures unchanged { IfOk result (λ answer. Unchanged self.old self.new answer) }
        ensures others { KeepsOthers self.old self.new (key_of (piece_of piece.now)) }
        ensures err { OnErr result (self.new ≡ self.old) }
    {
        self.shape.valid();
        piece.valid();
        let key = key_of(piece);
        if self.has_piece(key, piece.client() as u32) {
            return Ok(Assembled::Repeated);
        }
        let kept = KeptPiece::of(self.alloc, piece)?;
        self.put_piece(key, piece.client() as u32, kept);
        Ok(self.kept_or_complete(key))
    }

    /// Takes a piece that fits the rank and whose key is not completed, and says what becomes of it. It is copied only where it is kept, or completes its key with pieces of other clients. A piece that covers the rank's block alone is complete without memory. After want of memory what is pending is as before.
    pub fn offer(&mut self, piece: &PieceView<'_>) -> Result<Assembled, NoMemory>
        requires { piece_reason self.old.sizes self.old.rank (piece_of piece.now) ≡ None }
        ensures offers { IfOk result (λ answer. IsOffered self.old self.new (piece_of piece.now) answer) }
        ensures sizes { self.new.sizes ≡ self.old.sizes }
        ensures rank { self.new.rank ≡ self.old.rank }
        ensures alone { Covers self.old (piece_of piece.now) → (result ≡ Ok Assembled.Complete) × (self.new ≡ self.old) }
        ensures covered { Covers self.old (piece_of piece.now) → AreWhole self.old }
        ensures ready { IfOk result (λ answer. answer ≡ Assembled.Complete → IsPartial self.old (piece_of piece.now)
            → IsSome (kept_of self.new (key_of (piece_of piece.now)))) }
        ensures kept { IfOk result (λ answer. StoresKept self.old self.new (piece_of piece.now) answer) }
        ensures complete { IfOk result (λ answer. StoresComplete self.old self.new (piece_of piece.now) answer) }
        ensures unchanged { IfOk result (λ answer. Unchanged self.old self.new answer) }
        ensures others { KeepsOthers self.old self.new (key_of (piece_of piece.now)) }
        ensures memory { OnErr result (IsPartial self.old (piece_of piece.now)) }
        ensures err { OnErr result (self.new ≡ self.old) }
    {
        let block = self.shape.block(self.rank);
        if piece.count() == block.end - block.first {
            return Ok(Assembled::Complete);
        }
        match self.life(key_of(piece)) {
            None => self.start(piece),
            Some(life) => {
                if piece.life() < life {
                    Ok(Assembled::Stale)
                } else if piece.life() == life {
                    self.join(piece)
                } else {
                    self.start(piece)
                }
            }
        }
    }

    /// The block of a key that has pieces. Nothing is copied. Where each client that overlaps the block has its piece there, each sample of the block is that of a piece.
    pub fn rows(&self, key: GroupStep) -> PendingRows<'_>
        requires { IsSome (kept_of self.now (key_at key)) }
        ensures sizes { sizes_of result ≡ self.now.sizes }
        ensures rank { rank_of result ≡ self.now.rank }
        ensures shares { (client : ℕ) → shares_of result client ≡ share_at self.now (key_at key) client }
    {
        PendingRows {
            shape: self.shape,
            rank: self.rank,
            span: self.shape.block(self.rank),
            pieces: &self.keys[&key],
        }
    }

    /// Takes back what is held of a key.
    pub fn drop_key(&mut self, key: GroupStep)
        ensures sizes { self.new.sizes ≡ self.old.sizes }
        ensures rank { self.new.rank ≡ self.old.rank }
        ensures own { kept_of self.new (key_at key) ≡ None }
        ensures pends { DropsCompleted self.old self.new (key_at key) }
        ensures others { KeepsOthers self.old self.new (key_at key) }
    {
        self.keys.remove(&key);
    }

    /// Takes all pieces out.
    pub fn reset(&mut self)
        ensures sizes { self.new.sizes ≡ self.old.sizes }
        ensures rank { self.new.rank ≡ self.old.rank }
        ensures empty { (key : Key) → kept_of self.new key ≡ None }
    {
        self.keys.clear();
    }

    /// Whether nothing is pending.
    pub fn is_empty(&self) -> bool
        ensures { IsTrue result ↔ (self.now.entries ≡ []) }
    {
        self.keys.is_empty()
    }

    /// Appends the number of keys and the keys by rising plane, then group, each with its life and the samples of its pieces in rising client. After want of memory a front of them may stand there.
    pub fn put(&self, out: &mut Put) -> Result<(), NoMemory>
        ensures { OnOk result (out.new ≡ out.old ++ pending_text (keys_saved self.now) []) }
    {
        self.shape.valid();
        let keys = self.keys.len();
        out.put_u32(keys as u32)?;
        for (key, pieces) in self.keys.iter() {
            put_key(key, pieces, out)?;
        }
        Ok(())
    }

    // Puts a key with its pieces behind all others.
    fn add(&mut self, key: GroupStep, pieces: KeyPieces) -> Result<(), NoMemory>
        requires fits { IsPending self.old.sizes self.old.rank (key_at key) pieces }
        ensures sizes { self.new.sizes ≡ self.old.sizes }
        ensures rank { self.new.rank ≡ self.old.rank }
        ensures added { IfOk result (λ _. self.new.entries ≡ insert_entry key_cmp self.old.entries key pieces) }
    {
        self.keys.insert(key, pieces)?;
        Ok(())
    }

    // Takes the next key, from the least on, and gives the least that may come behind it.
    fn take_next(
        &mut self,
        marks: &Marks,
        least: GroupStep,
        from: &mut Take<'_>,
    ) -> Result<GroupStep, RecoverFault>
        requires { AreBefore (key_at least) self.old.entries }
        ensures sizes { self.new.sizes ≡ self.old.sizes }
        ensures rank { self.new.rank ≡ self.old.rank }
        ensures before { IfOk result (λ next. AreBefore (key_at next) self.new.entries) }
        ensures read { TakesKey self.old self.new (key_at least) (cursor_of from.new) result
            (checkpoints.key_at self.old.sizes self.old.rank (rows_of marks.now) (key_at least) (cursor_of from.old)) }
    {
        let (key, pieces) = take_key(self.alloc, &self.shape, self.rank, marks, least, from)?;
        self.add(key, pieces)?;
        Ok(GroupStep {
            step: key.step,
            group: key.group + 1,
        })
    }

    // Takes all keys, where there are none yet.
    #[tactic(auto, unfolding(mls_ckpt::specs::Checkpoints::pending_at))]
    fn take_keys(&mut self, marks: &Marks, from: &mut Take<'_>) -> Result<(), RecoverFault>
        requires { self.old.entries ≡ [] }
        ensures sizes { self.new.sizes ≡ self.old.sizes }
        ensures rank { self.new.rank ≡ self.old.rank }
        ensures read { Gives (λ _. keys_saved self.new) (cursor_of from.new) result
            (pending_at self.old.sizes self.old.rank (rows_of marks.now) (cursor_of from.old)) }
    {
        let count = u32_of(from, u32::MAX)?;
        let mut least = GroupStep { step: 0, group: 0 };
        for _key in 0..count {
            least = self.take_next(marks, least, from)?;
        }
        Ok(())
    }

    /// Takes the pending pieces of a rank from bytes, where these keys are marked. `Bad` tells the first place that is wrong. A fault leaves the place unchanged. Room is taken as keys and samples come, so that a number of them which the bytes can't hold takes none.
    pub fn take(
        alloc: Global,
        shape: &Shape,
        rank: u32,
        marks: &Marks,
        from: &mut Take<'_>,
    ) -> Result<Pending, RecoverFault>
        requires { rank < shape.now.ranks }
        ensures exact { Recovers keys_saved (cursor_of from.old) (cursor_of from.new) result
            (pending_at shape.now rank (rows_of marks.now) (cursor_of from.old)) }
        ensures sizes { IfOk result (λ pending. pending.sizes ≡ shape.now) }
        ensures rank { IfOk result (λ pending. pending.rank ≡ rank) }
    {
        let mut next = *from;
        let mut pending = Pending::new(alloc, shape, rank);
        pending.take_keys(marks, &mut next)?;
        *from = next;
        Ok(pending)
    }
}
