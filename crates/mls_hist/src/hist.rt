//! The histograms of a rank's block.

ghost use Rattle.mls_hist.specs.Histograms.{IsHist};
ghost use Rattle.mls_model.specs.Studies.{AreSizes};

use crate::adding::{WAITING, add_plane, add_samples, gather};
use crate::cells::{BINS, BinCounts, MARK, bracket_of, copied, put_counts};
use crate::taken::take_part;
use mls_base::faults::NoMemory;
use mls_base::rows::Rows;
use mls_base::shape::Shape;
use mls_ckpt::{Put, RecoverFault, Take};
use mls_field::fold::RowFold;
use std::alloc::Global;

/// For each plane and each cell of a rank's block the numbers of samples of A and B in 64 bins, over shifted values:
/// bin i holds those from 1024 · i to 1024 · i + 1023.
/// A cell is a place in the block.
///
/// Of each plane up to seven rows wait as samples. When an eighth comes, all are added together, so that the counts
/// are read and written once for eight rows.
/// A reader adds the rows that wait for a cell to the copy that it hands out.
///
/// The counts of a cell take 256 bytes, and lie in the order in which they are added to. The rows that wait take 32
/// bytes of each cell.
#[derive(Drop)]
pub struct Hist {
    shape: Shape,
    rank: u32,
    places: u32,
    counts: Vec<u32>,
    waiting: Vec<u32>,
    bins: Vec<u32>,
    samples: Vec<u16>,
    ghost kept: { IsHist shape rank places counts.items waiting.items bins.items samples.items },
    ghost sized: { AreSizes shape },
}

impl RowFold for Hist {
    ghost use Rattle.mls_hist.specs.HistPart.{part_at, hist_part};
    ghost use Rattle.mls_hist.specs.Spelled.{part_of_hist};
    ghost use Rattle.mls_hist.specs.Stands.{shape_of, rank_of, row_count, StandsFor};

    ghost shape_of = { shape_of };

    ghost rank_of = { rank_of };

    ghost row_count = { row_count };

    ghost stands = { StandsFor };

    ghost part = { part_of_hist };

    ghost part_at = { part_at };

    ghost part_of = { hist_part };

    fn new(alloc: Global, shape: &Shape, rank: u32) -> Result<Hist, NoMemory> {
        let block = shape.block(rank);
        let places = block.end - block.first;
        let planes = shape.planes() as usize;
        let cells = planes * places as usize;
        let counts = vec![in alloc; 0u32; planes]?;
        let waiting = vec![in alloc; 0u32; planes]?;
        let bins = vec![in alloc; 0u32; BINS * cells]?;
        let samples = vec![in alloc; 0u16; WAITING * cells]?;
        Ok(Hist {
            shape: *shape,
            rank,
            places,
            counts,
            waiting,
            bins,
            samples,
        })
    }

    fn add_block<R: Rows>(&mut self, step: u32, rows: &R) {
        if self.waiting[step as usize] < 7 {
            self.keep_waiting(step, rows);
        } else {
            self.add_waiting(step, rows);
        }
    }

    fn reset(&mut self) {
        self.counts.as_mut_slice().fill(0);
        self.waiting.as_mut_slice().fill(0);
        self.bins.as_mut_slice().fill(0);
    }

    fn put(&self, out: &mut Put) -> Result<(), NoMemory> {
        out.put_u32(MARK)?;
        self.put_planes(out)
    }

    fn take(
        alloc: Global,
        shape: &Shape,
        rank: u32,
        counts: &[u32],
        from: &mut Take<'_>,
    ) -> Result<Hist, RecoverFault> {
        let block = shape.block(rank);
        let places = block.end - block.first;
        let planes = shape.planes() as usize;
        let cells = planes * places as usize;
        let kept = counts.to_vec(alloc)?;
        let waiting = vec![in alloc; 0u32; planes]?;
        let mut bins = vec![in alloc; 0u32; BINS * cells]?;
        let samples = vec![in alloc; 0u16; WAITING * cells]?;
        let start = *from;
        let read = take_part(bins.as_mut_slice(), counts, places as usize, from);
        if let Err(fault) = read {
            *from = start;
            return Err(fault);
        }
        Ok(Hist {
            shape: *shape,
            rank,
            places,
            counts: kept,
            waiting,
            bins,
            samples,
        })
    }

    fn part_laws() {}
}

impl Hist {
    ghost use Rattle.std.specs.Prelude.{◌≡◌, ℕ, ◌+◌, ◌*◌, ◌<◌, ◌≤◌, ◌↔◌, length, sum, slice_index, OnOk, IsNone, IfSome};
    ghost use Rattle.mls_model.specs.Studies.{planes};
    ghost use Rattle.mls_model.specs.Blocks.{block, width};
    ghost use Rattle.mls_model.specs.CellSums.{both};
    ghost use Rattle.mls_model.specs.Standing.{Table};
    ghost use Rattle.mls_ckpt.specs.Reading.{texts};
    ghost use Rattle.mls_field.specs.PutBytes.{Grown};
    ghost use Rattle.mls_hist.specs.Bins.{count_in};
    ghost use Rattle.mls_hist.specs.Quartiles.{bracket, bracket_in};
    ghost use Rattle.mls_hist.specs.HistPart.{counts_text};
    ghost use Rattle.mls_hist.specs.Waiting.{plane_start};
    ghost use Rattle.mls_hist.specs.Spelled.{cells_of_plane, cells_of_hist};
    ghost use Rattle.mls_hist.specs.Stands.{shape_of, rank_of, row_count, StandsFor, CountsOneMore, StandsForMore, bin_count, bin_counts};

    // Puts a row at each place of a plane with those that wait.
    fn keep_waiting<R: Rows>(&mut self, step: u32, rows: &R)
        requires plane_in { step < planes (shape_of self.old) }
        requires rows { R.row_count rows.now ≡ (shape_of self.old).parameters + 2 }
        requires cells { R.place_count rows.now ≡ width (block (shape_of self.old) (rank_of self.old)) }
        requires room { row_count self.old step < 65535 }
        requires waiting { slice_index self.old.waiting.items step < 7 }
        ensures shape { shape_of self.new ≡ shape_of self.old }
        ensures rank { rank_of self.new ≡ rank_of self.old }
        ensures counted { CountsOneMore self.old self.new step }
        ensures stands { StandsForMore self.old self.new step (R.row_count rows.now) (R.sample rows.now) }
    {
        let plane = step as usize;
        let places = self.places as usize;
        let waiting = self.waiting[plane];
        let start = self.first_sample(step) + 2 * waiting as usize * places;
        gather(
            self.samples.as_mut_slice(),
            start,
            self.shape.signed(),
            rows,
        );
        self.counts[plane] += 1;
        self.waiting[plane] = waiting + 1;
    }

    // Adds all rows that wait for a plane, and with them a row at each place.
    fn add_waiting<R: Rows>(&mut self, step: u32, rows: &R)
        requires plane_in { step < planes (shape_of self.old) }
        requires rows { R.row_count rows.now ≡ (shape_of self.old).parameters + 2 }
        requires cells { R.place_count rows.now ≡ width (block (shape_of self.old) (rank_of self.old)) }
        requires room { row_count self.old step < 65535 }
        requires waiting { slice_index self.old.waiting.items step ≡ 7 }
        ensures shape { shape_of self.new ≡ shape_of self.old }
        ensures rank { rank_of self.new ≡ rank_of self.old }
        ensures counted { CountsOneMore self.old self.new step }
        ensures stands { StandsForMore self.old self.new step (R.row_count rows.now) (R.sample rows.now) }
    {
        let plane = step as usize;
        let places = self.places as usize;
        let start = self.first_sample(step);
        let first = self.first_cell(step);
        gather(
            self.samples.as_mut_slice(),
            start + 14 * places,
            self.shape.signed(),
            rows,
        );
        add_plane(
            self.bins.as_mut_slice(),
            first,
            self.samples.as_slice(),
            start,
            places,
        );
        self.counts[plane] += 1;
        self.waiting[plane] = 0;
    }

    /// How many rows were added to a plane.
    pub fn rows(&self, plane: u32) -> u32
        requires { plane < planes (shape_of self.now) }
        ensures value { result ≡ row_count self.now plane }
        ensures few { result ≤ 65535 }
        ensures table { (t : Table) → StandsFor self.now t →
            (place : ℕ) → place < width (block (shape_of self.now) (rank_of self.now)) → length (t plane place) ≡ result }
    {
        self.counts[plane as usize]
    }

    // Where the samples that wait for a plane begin.
    fn first_sample(&self, plane: u32) -> usize
        requires { plane < planes (shape_of self.now) }
        ensures value { result ≡ plane_start self.now.places plane }
        ensures fits { result + 16 * self.now.places ≤ length self.now.samples.items }
    {
        plane as usize * (WAITING * self.places as usize)
    }

    // The number of a plane's first cell among all cells.
    fn first_cell(&self, plane: u32) -> usize
        requires { plane < planes (shape_of self.now) }
        ensures value { result ≡ plane * self.now.places }
        ensures fits { (result + self.now.places) * 64 ≤ length self.now.bins.items }
    {
        plane as usize * self.places as usize
    }

    // How many rows wait for a plane.
    fn waiting_rows(&self, plane: u32) -> u32
        requires { plane < planes (shape_of self.now) }
        ensures value { result ≡ slice_index self.now.waiting.items plane }
        ensures few { result ≤ 7 }
    {
        self.waiting[plane as usize]
    }

    /// How many samples of A and B of a cell each bin holds, over shifted values, with the rows that wait for it.
    pub fn whole_counts(&self, plane: u32, cell: u32) -> BinCounts
        requires plane_in { plane < planes (shape_of self.now) }
        requires cell_in { cell < width (block (shape_of self.now) (rank_of self.now)) }
        ensures kept { result ≡ bin_counts self.now plane cell }
        ensures whole { sum result ≡ 2 * row_count self.now plane }
    {
        let places = self.places as usize;
        let place = self.first_cell(plane) + cell as usize;
        let at = self.first_sample(plane) + cell as usize;
        let waiting = self.waiting_rows(plane) as usize;
        let mut counts = copied(self.bins.as_slice(), place * BINS);
        add_samples(
            &mut counts,
            0,
            self.samples.as_slice(),
            at,
            places,
            2 * waiting,
        );
        counts
    }

    /// How many samples of A and B of a cell are in a bin, over shifted values.
    pub fn count(&self, plane: u32, cell: u32, bin: u32) -> u32
        requires plane_in { plane < planes (shape_of self.now) }
        requires cell_in { cell < width (block (shape_of self.now) (rank_of self.now)) }
        requires bin_in { bin < 64 }
        ensures kept { result ≡ bin_count self.now plane cell bin }
        ensures samples { (t : Table) → StandsFor self.now t → result ≡ count_in bin (both (t plane cell)) }
    {
        self.whole_counts(plane, cell)[bin as usize]
    }

    /// The bin that holds quartile j of the samples A and B of a cell: of N sorted samples the one numbered N · j / 4,
    /// rounded up, from 1. None exactly where there is no sample.
    pub fn bracket(&self, plane: u32, cell: u32, j: u32) -> Option<u32>
        requires plane_in { plane < planes (shape_of self.now) }
        requires cell_in { cell < width (block (shape_of self.now) (rank_of self.now)) }
        requires some { 1 ≤ j }
        requires quartile { j ≤ 3 }
        ensures kept { result ≡ bracket_in (bin_counts self.now plane cell) j }
        ensures none { IsNone result ↔ (row_count self.now plane ≡ 0) }
        ensures within { IfSome result (λ bin. bin < 64) }
        ensures samples { (t : Table) → StandsFor self.now t → result ≡ bracket (both (t plane cell)) j }
    {
        bracket_of(&self.whole_counts(plane, cell), 2 * self.rows(plane), j)
    }

    // Appends the counts of the cells of a plane, with the rows that wait.
    fn put_plane(&self, plane: u32, out: &mut Put) -> Result<(), NoMemory>
        requires { plane < planes (shape_of self.now) }
        ensures { OnOk result (Grown out.old out.new (texts counts_text (cells_of_plane self.now plane))) }
    {
        for cell in 0..self.places {
            put_counts(out, &self.whole_counts(plane, cell))?;
        }
        Ok(())
    }

    // Appends the counts of the cells of all planes.
    fn put_planes(&self, out: &mut Put) -> Result<(), NoMemory>
        ensures { OnOk result (Grown out.old out.new (texts (texts counts_text) (cells_of_hist self.now))) }
    {
        for plane in 0..self.shape.planes() {
            self.put_plane(plane, out)?;
        }
        Ok(())
    }
}
