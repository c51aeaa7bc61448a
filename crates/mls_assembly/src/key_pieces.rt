//! What is kept of the pieces of one key.

ghost use Rattle.std.specs.Prelude.{◌≡◌, ◌==◌, ℕ, ◌<◌, ◌≤◌, [], ◌++◌, length, set, cond, is_some, IfOk, OnOk, Some, None};
ghost use Rattle.std.specs.Option.{option_map};
ghost use Rattle.mls_ckpt.specs.Checkpoints.{share_at};
ghost use Rattle.mls_ckpt.specs.Places.{cursor_of};
ghost use Rattle.mls_ckpt.specs.Reading.{many, texts};
ghost use Rattle.mls_ckpt.specs.Recovering.{Gives};
ghost use Rattle.mls_ckpt.specs.States.{client_after};
ghost use Rattle.mls_ckpt.specs.Spellings.{share_text};
ghost use Rattle.mls_assembly.specs.KeyShares.{share_in, AreShares};
ghost use Rattle.mls_assembly.specs.Saved.{slot_shares, shares_from};

use crate::kept_piece::KeptPiece;
use crate::recovering::take_share;
use mls_base::faults::NoMemory;
use mls_base::shape::Shape;
use mls_ckpt::{Put, RecoverFault, Take};
use std::alloc::Global;
use std::marker::Model;

/// The pieces of one key and life, a slot for each client.
#[derive(Drop)]
pub(crate) struct KeyPieces {
    life: u32,
    pieces: Vec<Option<KeptPiece>>,
}

impl Model for KeyPieces {
    ghost use Rattle.mls_assembly.specs.KeyShares.{KeyShares};

    ghost Value = { KeyShares };

    ghost view = { λ o. record { life = o.life; shares = o.pieces.items } };
}

impl KeyPieces {
    /// A life with the piece of one of so many clients.
    pub(crate) fn of(
        alloc: Global,
        clients: u32,
        life: u32,
        client: u32,
        piece: KeptPiece,
    ) -> Result<KeyPieces, NoMemory>
        requires { client < clients }
        ensures life { IfOk result (λ o. o.life ≡ life) }
        ensures slots { IfOk result (λ o. length o.shares ≡ clients) }
        ensures shares { IfOk result (λ o. (c : ℕ) → share_in o c ≡ cond (c == client) (Some piece) None) }
    {
        let mut pieces = Vec::with_capacity(alloc, clients as usize)?;
        for _client in 0..clients {
            pieces.push(None)?;
        }
        pieces[client as usize] = Some(piece);
        Ok(KeyPieces { life, pieces })
    }

    /// A life with no pieces yet of so many clients.
    fn none(alloc: Global, clients: u32, life: u32) -> Result<KeyPieces, NoMemory>
        ensures life { IfOk result (λ o. o.life ≡ life) }
        ensures slots { IfOk result (λ o. length o.shares ≡ clients) }
        ensures none { IfOk result (λ o. (c : ℕ) → share_in o c ≡ None) }
    {
        let mut pieces = Vec::with_capacity(alloc, clients as usize)?;
        for _client in 0..clients {
            pieces.push(None)?;
        }
        Ok(KeyPieces { life, pieces })
    }

    /// So many pieces of a life, by rising client. A fault may leave the place where it is.
    pub(crate) fn take(
        alloc: Global,
        shape: &Shape,
        rank: u32,
        life: u32,
        count: u16,
        from: &mut Take<'_>,
    ) -> Result<KeyPieces, RecoverFault>
        requires { rank < shape.now.ranks }
        ensures read { Gives (λ o. shares_from 0 o.shares) (cursor_of from.new) result
            (many (share_at shape.now rank) client_after count 0 (cursor_of from.old)) }
        ensures life { IfOk result (λ o. o.life ≡ life) }
        ensures shares { IfOk result (λ o. AreShares shape.now rank o) }
    {
        let mut taken = KeyPieces::none(alloc, shape.clients(), life)?;
        let mut least = 0;
        for _piece in 0..count {
            let (client, piece) = take_share(alloc, shape, rank, least, from)?;
            taken.put(client, piece);
            least = client + 1;
        }
        Ok(taken)
    }

    /// The life.
    pub(crate) fn life(&self) -> u32
        ensures { result ≡ self.now.life }
    {
        self.life
    }

    /// Puts a client's piece into its slot.
    pub(crate) fn put(&mut self, client: u32, piece: KeptPiece)
        requires { client < length self.old.shares }
        ensures life { self.new.life ≡ self.old.life }
        ensures slots { length self.new.shares ≡ length self.old.shares }
        ensures shares { (c : ℕ) → share_in self.new c ≡ cond (c == client) (Some piece) (share_in self.old c) }
        ensures list { self.new.shares ≡ set self.old.shares client (Some piece) }
    {
        self.pieces[client as usize] = Some(piece);
    }

    /// A client's piece, where there is one.
    #[inline]
    pub(crate) fn piece(&self, client: u32) -> Option<&KeptPiece>
        requires { client < length self.now.shares }
        ensures { option_map (λ piece. piece.now) result ≡ share_in self.now client }
    {
        self.pieces[client as usize].as_ref()
    }

    /// The number of pieces.
    pub(crate) fn count(&self) -> u16
        requires { length self.now.shares ≤ 64 }
        ensures { result ≡ length (shares_from 0 self.now.shares) }
    {
        let mut count = 0;
        for client in 0..self.pieces.len() as u32 {
            count += self.count_slot(client);
        }
        count
    }

    // 1 where a client has a piece, else 0.
    fn count_slot(&self, client: u32) -> u16
        requires { client < length self.now.shares }
        ensures { result ≡ length (slot_shares client (share_in self.now client)) }
    {
        if self.piece(client).is_some() { 1 } else { 0 }
    }

    /// Appends the pieces in rising client, each behind its client's number.
    pub(crate) fn put_all(&self, out: &mut Put) -> Result<(), NoMemory>
        requires { length self.now.shares ≤ 64 }
        ensures { OnOk result (out.new ≡ out.old ++ texts share_text (shares_from 0 self.now.shares) []) }
    {
        for client in 0..self.pieces.len() as u32 {
            self.put_slot(client, out)?;
        }
        Ok(())
    }

    // Appends a client's piece, where there is one.
    #[tactic(auto, unfolding(mls_ckpt::specs::Spellings::share_text))]
    fn put_slot(&self, client: u32, out: &mut Put) -> Result<(), NoMemory>
        requires slots { length self.now.shares ≤ 64 }
        requires client { client < length self.now.shares }
        ensures { OnOk result (out.new ≡ out.old ++ texts share_text (slot_shares client (share_in self.now client)) []) }
    {
        match self.piece(client) {
            Some(piece) => {
                out.put_u16(client as u16)?;
                piece.put(out)
            }
            None => Ok(()),
        }
    }
}
