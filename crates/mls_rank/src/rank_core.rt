//! The state of one rank.

ghost use Rattle.std.specs.Prelude.{◌≡◌, ◌≢◌, ◌<◌, ◌≤◌, ◌+◌, ◌-◌, ◌^◌, ◌==◌, ◌||◌, ◌&&◌, ℕ, List, [], ◌∷◌, ◌++◌, true, false, Ok, IfOk, IfErr, OnOk, OnErr, IsSome};
ghost use Rattle.std.specs.Option.{option_to_list};
ghost use Rattle.std.specs.List.{AllByRecursion};
ghost use Rattle.mls_model.specs.Studies.{AreSizes, planes};
ghost use Rattle.mls_model.specs.Blocks.{block, width};
ghost use Rattle.mls_model.specs.Frames.{Piece};
ghost use Rattle.mls_model.specs.Completion.{key_of};
ghost use Rattle.mls_model.specs.Histories.{LaneEvent};
ghost use Rattle.mls_model.specs.Survival.{is_save, is_crash, surviving};
ghost use Rattle.mls_model.specs.Fitting.{piece_reason, frame_piece};
ghost use Rattle.mls_model.specs.Outcomes.{outcome, piece_outcome};
ghost use Rattle.mls_model.specs.Fitting.{Fits};
ghost use Rattle.mls_model.specs.Survival.{before_last_save};
ghost use Rattle.mls_model.specs.Outcomes.{counted, total_count};
ghost use Rattle.mls_ckpt.specs.Checkpoints.{checkpoint_of};
ghost use Rattle.mls_ckpt.specs.Histories.{checkpoint};
ghost use Rattle.mls_ckpt.specs.Reading.{Refuses};
ghost use Rattle.mls_ckpt.specs.Spellings.{spelled_state};
ghost use Rattle.mls_frame.specs.Views.{frame_of, piece_of};
ghost use Rattle.mls_ledger.specs.MarkSets.{marked};
ghost use Rattle.mls_assembly.specs.Held.{ArePending, AreRising};
ghost use Rattle.mls_assembly.specs.Offered.{Covers, IsPartial};
ghost use Rattle.mls_rank.specs.Waiting.{AreWaiting};
ghost use Rattle.mls_rank.specs.Counting.{no_counts, is_idle, is_saved, is_crashed, IsUnkept};

use crate::counting::{is_not_counted, no_events, one_more};
use crate::recovering::{take_counts, take_end, take_head};
use crate::saving::{put_counts, put_head};
use mls_assembly::{Assembled, GroupStep, Pending};
use mls_base::faults::NoMemory;
use mls_base::rows::Rows;
use mls_base::shape::Shape;
use mls_ckpt::{Put, RecoverFault, Take};
use mls_field::fold::RowFold;
use mls_frame::{FrameView, PieceView};
use mls_ledger::Marks;
use mls_model::lanes::LaneKind;
use mls_model::outcomes::{Counts, Outcome, Reason};
use std::alloc::Global;

/// The state of one rank: the counts of its events, the marked keys, the pieces that wait for those of other clients, and what a fold keeps of the accepted rows.
///
/// It stands for the history of the events that it was given, where it does. Its type keeps that the rows added to a plane are as many as the plane's marks, and that no pending key is marked or whole.
#[derive(Drop)]
pub struct RankCore<F: RowFold> {
    shape: Shape,
    rank: u32,
    counts: Counts,
    marks: Marks,
    pending: Pending,
    fold: F,
    ghost rank_in: { rank < shape.ranks },
    ghost groups: { marks.groups ≡ shape.groups },
    ghost planes: { marks.planes ≡ planes shape },
    ghost fold_shape: { F.shape_of fold ≡ shape },
    ghost fold_rank: { F.rank_of fold ≡ rank },
    ghost pending_shape: { pending.sizes ≡ shape },
    ghost pending_rank: { pending.rank ≡ rank },
    ghost rows: { (plane : ℕ) → F.row_count fold plane ≡ marked marks plane },
    ghost waiting: { AreWaiting marks pending },
}

impl<F: RowFold> RankCore<F> {
    ghost use Rattle.mls_rank.specs.Cores.{sizes_of, rank_of, counts_of, marks_of, has_mark, mark_count, fold_of, pending_of, AreMarks, SameRows, IsSame};
    ghost use Rattle.mls_rank.specs.Saving.{state_of, AreKept, SpellsCore, RecoversSaved};
    ghost use Rattle.mls_rank.specs.Standing.{StandsFor, as_event, pieces_of, IsPieceOutcome, IsEventOutcome, KeepsMore, IsOutcome, StandsOn, IsSmall, IsPart};

    /// The state before any event.
    pub fn new(alloc: Global, shape: &Shape, rank: u32) -> Result<RankCore<F>, NoMemory>
        requires { rank < shape.now.ranks }
        ensures sizes { IfOk result (λ core. sizes_of core ≡ shape.now) }
        ensures rank { IfOk result (λ core. rank_of core ≡ rank) }
        ensures counts { IfOk result (λ core. counts_of core ≡ no_counts) }
        ensures stands { IfOk result (λ core. StandsFor core []) }
    {
        let marks = Marks::new(alloc, shape)?;
        let fold = F::new(alloc, shape, rank)?;
        Ok(RankCore {
            shape: *shape,
            rank,
            counts: no_events(),
            marks,
            pending: Pending::new(alloc, shape, rank),
            fold,
        })
    }

    /// The marks and the pending keys are those of the study and the rank. No bit stands past the groups, the pending keys rise
    /// by plane, then group, and none of them is marked or whole. The rows added to a plane are as many as its marks.
    pub fn valid(&self)
        ensures marks { AreMarks self.now }
        ensures rows { (plane : ℕ) → F.row_count (fold_of self.now) plane ≡ mark_count self.now plane }
        ensures sizes { (pending_of self.now).sizes ≡ sizes_of self.now }
        ensures rank { (pending_of self.now).rank ≡ rank_of self.now }
        ensures pending { ArePending (pending_of self.now) }
        ensures rising { AreRising (pending_of self.now) }
        ensures waiting { AreWaiting (marks_of self.now) (pending_of self.now) }
    {
        self.marks.valid();
        self.pending.valid();
    }

    /// The study's numbers.
    pub fn shape(&self) -> Shape
        ensures { result ≡ sizes_of self.now }
    {
        self.shape
    }

    /// The rank.
    pub fn rank(&self) -> u32
        ensures value { result ≡ rank_of self.now }
        ensures within { result < (sizes_of self.now).ranks }
    {
        self.rank
    }

    /// The numbers of events with each outcome.
    pub fn counts(&self) -> Counts
        ensures { result ≡ counts_of self.now }
    {
        self.counts
    }

    /// The number of groups whose key of the plane is marked. A step here is the number of a plane.
    pub fn accepted(&self, step: u32) -> u32
        requires { step < planes (sizes_of self.now) }
        ensures { result ≡ mark_count self.now step }
    {
        self.marks.count(step)
    }

    /// Whether a group's key of the plane is marked.
    pub fn has(&self, group: u32, step: u32) -> bool
        ensures { result ≡ has_mark self.now group step }
    {
        self.marks.has(group, step)
    }

    /// What is kept of the accepted rows.
    pub fn folded(&self) -> &F
        ensures value { result.now ≡ fold_of self.now }
        ensures sizes { F.shape_of result.now ≡ sizes_of self.now }
        ensures rank { F.rank_of result.now ≡ rank_of self.now }
        ensures rows { (plane : ℕ) → F.row_count result.now plane ≡ mark_count self.now plane }
    {
        &self.fold
    }

    /// Why a piece on a client lane is foreign to the rank, if it is.
    fn reason_of(&self, piece: &PieceView<'_>) -> Option<Reason>
        ensures { result ≡ piece_reason (sizes_of self.now) (rank_of self.now) (piece_of piece.now) }
    {
        if piece.rows() != self.shape.parameters() + 2 {
            return Some(Reason::Rows);
        }
        if piece.group() >= self.shape.groups() {
            return Some(Reason::Group);
        }
        if piece.step() >= self.shape.planes() {
            return Some(Reason::Step);
        }
        if piece.client() as u32 >= self.shape.clients() {
            return Some(Reason::Client);
        }
        let overlap = self.shape.overlap(self.rank, piece.client() as u32);
        let has_its_cells = overlap.first < overlap.end
            && piece.first() == overlap.first
            && piece.count() == overlap.end - overlap.first;
        if has_its_cells {
            None
        } else {
            Some(Reason::Cells)
        }
    }

    /// Takes a piece that covers the rank's block alone and whose key is not marked: marks the key and adds the rows.
    fn take_alone(&mut self, piece: &PieceView<'_>) -> Result<Outcome, NoMemory>
        requires fits { piece_reason (sizes_of self.old) (rank_of self.old) (piece_of piece.now) ≡ None }
        requires absent { has_mark self.old (piece_of piece.now).group (piece_of piece.now).plane ≡ false }
        requires covers { Covers (pending_of self.old) (piece_of piece.now) }
        ensures outcome { IfOk result (λ o. IsPieceOutcome self.old (piece_of piece.now) o) }
        ensures keeps { OnOk result (KeepsMore self.old self.new ((piece_of piece.now) ∷ [])) }
        ensures sizes { sizes_of self.new ≡ sizes_of self.old }
        ensures rank { rank_of self.new ≡ rank_of self.old }
        ensures counts { counts_of self.new ≡ counts_of self.old }
        ensures counted { IfOk result (λ o. (is_idle o ≡ false) × (is_saved o ≡ false) × (is_crashed o ≡ false)) }
        ensures kept { IfOk result (λ o. o ≢ Outcome.Accepted → SameRows self.old self.new) }
        ensures pending { IfOk result (λ o. IsUnkept o → pending_of self.new ≡ pending_of self.old) }
        ensures memory { OnErr result (IsPartial (pending_of self.old) (piece_of piece.now)) }
        ensures err { OnErr result (IsSame self.old self.new) }
    {
        self.shape.valid();
        self.pending.offer(piece)?;
        self.marks.set(piece.group(), piece.step());
        self.fold.add_block(piece.step(), piece);
        Ok(Outcome::Accepted)
    }

    /// Takes a piece of a part of the rank's block whose key is not marked. Where it completes its key, the key is marked, and
    /// the rows of all its pieces are added and let go.
    fn take_part(&mut self, piece: &PieceView<'_>) -> Result<Outcome, NoMemory>
        requires fits { piece_reason (sizes_of self.old) (rank_of self.old) (piece_of piece.now) ≡ None }
        requires absent { has_mark self.old (piece_of piece.now).group (piece_of piece.now).plane ≡ false }
        requires part { IsPartial (pending_of self.old) (piece_of piece.now) }
        ensures outcome { IfOk result (λ o. IsPieceOutcome self.old (piece_of piece.now) o) }
        ensures keeps { OnOk result (KeepsMore self.old self.new ((piece_of piece.now) ∷ [])) }
        ensures sizes { sizes_of self.new ≡ sizes_of self.old }
        ensures rank { rank_of self.new ≡ rank_of self.old }
        ensures counts { counts_of self.new ≡ counts_of self.old }
        ensures counted { IfOk result (λ o. (is_idle o ≡ false) × (is_saved o ≡ false) × (is_crashed o ≡ false)) }
        ensures kept { IfOk result (λ o. o ≢ Outcome.Accepted → SameRows self.old self.new) }
        ensures pending { IfOk result (λ o. IsUnkept o → pending_of self.new ≡ pending_of self.old) }
        ensures memory { OnErr result (IsPartial (pending_of self.old) (piece_of piece.now)) }
        ensures err { OnErr result (IsSame self.old self.new) }
    {
        self.shape.valid();
        let answer = self.pending.offer(piece)?;
        match answer {
            Assembled::Kept => Ok(Outcome::Kept),
            Assembled::Stale => Ok(Outcome::Stale),
            Assembled::Repeated => Ok(Outcome::Repeated),
            Assembled::Complete => {
                let key = GroupStep {
                    step: piece.step(),
                    group: piece.group(),
                };
                self.marks.set(key.group, key.step);
                self.fold.add_block(key.step, &self.pending.rows(key));
                self.pending.drop_key(key);
                Ok(Outcome::Accepted)
            }
        }
    }

    /// Takes a piece that fits the rank: adds the rows of its key where it completes it, and marks the key.
    fn take_piece(&mut self, piece: &PieceView<'_>) -> Result<Outcome, NoMemory>
        requires { piece_reason (sizes_of self.old) (rank_of self.old) (piece_of piece.now) ≡ None }
        ensures outcome { IfOk result (λ o. IsPieceOutcome self.old (piece_of piece.now) o) }
        ensures keeps { OnOk result (KeepsMore self.old self.new ((piece_of piece.now) ∷ [])) }
        ensures sizes { sizes_of self.new ≡ sizes_of self.old }
        ensures rank { rank_of self.new ≡ rank_of self.old }
        ensures counts { counts_of self.new ≡ counts_of self.old }
        ensures counted { IfOk result (λ o. (is_idle o ≡ false) × (is_saved o ≡ false) × (is_crashed o ≡ false)) }
        ensures kept { IfOk result (λ o. o ≢ Outcome.Accepted → SameRows self.old self.new) }
        ensures pending { IfOk result (λ o. IsUnkept o → pending_of self.new ≡ pending_of self.old) }
        ensures memory { OnErr result (IsSmall self.old (piece_of piece.now)) }
        ensures err { OnErr result (IsSame self.old self.new) }
    {
        if self.marks.has(piece.group(), piece.step()) {
            return Ok(Outcome::Replay);
        }
        let block = self.shape.block(self.rank);
        if piece.count() == block.end - block.first {
            self.take_alone(piece)
        } else {
            self.take_part(piece)
        }
    }

    /// Takes an event: what becomes of it, and the marks, rows and pending pieces with it. It counts nothing.
    fn take(&mut self, kind: LaneKind, view: &FrameView<'_>) -> Result<Outcome, NoMemory>
        ensures outcome { IfOk result (λ o. IsEventOutcome self.old kind (frame_of view.now) o) }
        ensures keeps { OnOk result (KeepsMore self.old self.new (pieces_of self.old kind (frame_of view.now))) }
        ensures sizes { sizes_of self.new ≡ sizes_of self.old }
        ensures rank { rank_of self.new ≡ rank_of self.old }
        ensures counts { counts_of self.new ≡ counts_of self.old }
        ensures saved { IfOk result (λ o. is_saved o ≡ is_save (as_event kind (frame_of view.now))) }
        ensures crashed { IfOk result (λ o. is_crashed o ≡ is_crash (as_event kind (frame_of view.now))) }
        ensures kept { IfOk result (λ o. o ≢ Outcome.Accepted → SameRows self.old self.new) }
        ensures pending { IfOk result (λ o. IsUnkept o → pending_of self.new ≡ pending_of self.old) }
        ensures idle { IfOk result (λ o. is_idle o ≡ true → self.new ≡ self.old) }
        ensures memory { OnErr result (IsPart (sizes_of self.old) (rank_of self.old) kind (frame_of view.now)) }
        ensures err { OnErr result (IsSame self.old self.new) }
    {
        match (kind, view) {
            (LaneKind::Client, FrameView::Piece(piece)) => match self.reason_of(piece) {
                Some(reason) => Ok(Outcome::Foreign(reason)),
                None => self.take_piece(piece),
            },
            (LaneKind::Client, FrameView::Save | FrameView::Crash) => {
                Ok(Outcome::Foreign(Reason::LaneKind))
            }
            (LaneKind::Control, FrameView::Piece(_)) => Ok(Outcome::Foreign(Reason::LaneKind)),
            (LaneKind::Control, FrameView::Save) => Ok(Outcome::Save),
            (LaneKind::Control, FrameView::Crash) => Ok(Outcome::Crash),
            _ => Ok(Outcome::Quiet),
        }
    }

    /// Counts an outcome.
    fn count(&mut self, outcome: Outcome)
        requires { total_count (counts_of self.old) < 2 ^ 64 - 1 }
        ensures counts { counts_of self.new ≡ counted (counts_of self.old) outcome }
        ensures shape { self.new.shape ≡ self.old.shape }
        ensures rank { self.new.rank ≡ self.old.rank }
        ensures marks { self.new.marks ≡ self.old.marks }
        ensures pending { self.new.pending ≡ self.old.pending }
        ensures fold { self.new.fold ≡ self.old.fold }
        ensures idle { is_idle outcome ≡ true → self.new ≡ self.old }
    {
        if is_not_counted(outcome) {
            return;
        }
        self.counts = one_more(self.counts, outcome);
    }

    /// Takes an event of a lane of this kind and says what becomes of it. It takes no memory for a piece that covers the rank's block alone, nor for any other event. After want of memory the core is as before.
    ///
    /// A crash on a control lane changes nothing here: who keeps the saved states goes back to one.
    pub fn step(&mut self, kind: LaneKind, view: &FrameView<'_>) -> Result<Outcome, NoMemory>
        requires room { total_count (counts_of self.old) < 2 ^ 64 - 1 }

        // What the core stands for.
        ensures outcome { IfOk result (λ o. IsOutcome self.old (as_event kind (frame_of view.now)) o) }
        ensures stands { OnOk result (StandsOn self.old self.new (as_event kind (frame_of view.now))) }

        // What holds of every core.
        ensures sizes { sizes_of self.new ≡ sizes_of self.old }
        ensures rank { rank_of self.new ≡ rank_of self.old }
        ensures counted { IfOk result (λ o. counts_of self.new ≡ counted (counts_of self.old) o) }
        ensures sum { total_count (counts_of self.new) ≤ total_count (counts_of self.old) + 1 }
        ensures saved { IfOk result (λ o. is_saved o ≡ is_save (as_event kind (frame_of view.now))) }
        ensures crashed { IfOk result (λ o. is_crashed o ≡ is_crash (as_event kind (frame_of view.now))) }
        ensures kept { IfOk result (λ o. o ≢ Outcome.Accepted → SameRows self.old self.new) }
        ensures pending { IfOk result (λ o. IsUnkept o → pending_of self.new ≡ pending_of self.old) }
        ensures idle { IfOk result (λ o. is_idle o ≡ true → self.new ≡ self.old) }

        ensures memory { OnErr result (IsPart (sizes_of self.old) (rank_of self.old) kind (frame_of view.now)) }
        ensures err { OnErr result (IsSame self.old self.new) }
    {
        let outcome = self.take(kind, view)?;
        self.count(outcome);
        Ok(outcome)
    }

    /// After a crash the core of the last save stands for the whole history, and where there was no save the core before any event does.
    pub fn after_crash(&self)
        ensures { (history : List LaneEvent) (e : LaneEvent) → is_crash e ≡ true
            → StandsFor self.now (before_last_save history) → StandsFor self.now (history ++ e ∷ []) }
    {
        self.shape.valid();
    }

    /// Takes back the state before any event.
    pub fn reset(&mut self)
        ensures sizes { sizes_of self.new ≡ sizes_of self.old }
        ensures rank { rank_of self.new ≡ rank_of self.old }
        ensures counts { counts_of self.new ≡ no_counts }
        ensures stands { StandsFor self.new [] }
    {
        self.marks.reset();
        self.pending.reset();
        self.fold.reset();
        self.counts = no_events();
    }

    /// Its checkpoint, in version 3. After want of memory nothing of it is left.
    pub fn save_bytes(&self, alloc: Global) -> Result<Vec<u8>, NoMemory>
        ensures spelled { IfOk result (λ bytes. bytes.items
            ≡ spelled_state 3 (sizes_of self.now) (rank_of self.now) (state_of self.now)) }
        ensures history { IfOk result (λ bytes. (h : List LaneEvent) → StandsFor self.now h
            → bytes.items ≡ checkpoint F.part_of (sizes_of self.now) (rank_of self.now) h) }
        ensures spells { IfOk result (λ bytes. total_count (counts_of self.now) ≤ 2 ^ 62
            → SpellsCore (sizes_of self.now) (rank_of self.now) bytes.items self.now) }
    {
        self.marks.valid();
        self.pending.valid();
        F::part_laws();
        let mut out = Put::new(alloc);
        put_head(&self.shape, self.rank, &mut out)?;
        put_counts(&self.counts, &mut out)?;
        self.marks.put(&mut out)?;
        self.fold.put(&mut out)?;
        self.pending.put(&mut out)?;
        Ok(out.finish())
    }

    // The core that bytes spell.
    fn read(
        alloc: Global,
        shape: &Shape,
        rank: u32,
        bytes: &[u8],
    ) -> Result<RankCore<F>, RecoverFault>
        requires { rank < shape.now.ranks }
        ensures sizes { IfOk result (λ core. sizes_of core ≡ shape.now) }
        ensures rank { IfOk result (λ core. rank_of core ≡ rank) }
        ensures read { IfOk result (λ core. checkpoint_of F.part_at shape.now rank bytes.now ≡ Ok (state_of core)) }
        ensures kept { IfOk result (λ core. AreKept core) }
        ensures fault { IfErr result (λ fault. Refuses fault (checkpoint_of F.part_at shape.now rank bytes.now)) }
    {
        F::part_laws();
        shape.valid();
        let mut from = Take::new(bytes);
        take_head(shape, rank, &mut from)?;
        let counts = take_counts(&mut from)?;
        let marks = Marks::take(alloc, shape, &mut from)?;
        marks.valid();
        let fold = F::take(alloc, shape, rank, marks.counts(), &mut from)?;
        let pending = Pending::take(alloc, shape, rank, &marks, &mut from)?;
        pending.valid();
        take_end(&from)?;
        Ok(RankCore {
            shape: *shape,
            rank,
            counts,
            marks,
            pending,
            fold,
        })
    }

    /// The core whose state a checkpoint of this study and rank spells, in any version that is read for the study. `Bad` exactly where the bytes are none, at the first place that is wrong.
    pub fn recover(
        alloc: Global,
        shape: &Shape,
        rank: u32,
        bytes: &[u8],
    ) -> Result<RankCore<F>, RecoverFault>
        requires { rank < shape.now.ranks }
        ensures sizes { IfOk result (λ core. sizes_of core ≡ shape.now) }
        ensures rank { IfOk result (λ core. rank_of core ≡ rank) }
        ensures read { IfOk result (λ core. checkpoint_of F.part_at shape.now rank bytes.now ≡ Ok (state_of core)) }
        ensures few { IfOk result (λ core. total_count (counts_of core) ≤ 2 ^ 62) }
        ensures fault { IfErr result (λ fault. Refuses fault (checkpoint_of F.part_at shape.now rank bytes.now)) }
        ensures again { RecoversSaved shape.now rank bytes.now result }
    {
        F::part_laws();
        shape.valid();
        RankCore::read(alloc, shape, rank, bytes)
    }
}
