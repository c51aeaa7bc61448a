//! The sums of a rank's block.

ghost use Rattle.mls_field.specs.Fields.{IsField};
ghost use Rattle.mls_model.specs.Studies.{AreSizes};

use crate::cells::{
    MOST_SUMS, add_rows_to_ends, add_rows_to_numbers, add_rows_to_sums, power_of, read_ends,
    read_numbers, read_sums,
};
use crate::columns::{add_to_ends, add_to_numbers, add_to_sums};
use crate::copied::{
    BLOCK, BLOCK_ENDS, BLOCK_NUMBERS, BLOCK_SUMS, Copies, add_waiting_to_ends,
    add_waiting_to_numbers, add_waiting_to_sums, copy_ends, copy_numbers, copy_sums,
};
use crate::ends::clear_ends;
use crate::fold::RowFold;
use crate::gathered::gather;
use crate::put::{CELL_BYTES, ROOM_BEHIND, put_cell};
use crate::stored::take_planes;
use mls_base::faults::NoMemory;
use mls_base::rows::Rows;
use mls_base::shape::Shape;
use mls_ckpt::{Put, RecoverFault, Take};
use mls_cov::Martinez;
use mls_power::columns::GROUPS;
use mls_power::ends::EXTREMA_NUMBERS;
use mls_power::exceed::{Exceed, MOST_THRESHOLDS};
use mls_power::extrema::Extrema;
use mls_power::power::{Power, Powers};
use std::alloc::Global;

/// The sums of the rows of each cell of a rank's block, for each plane: all that `Power`, `Extrema`, `Exceed` and
/// `Martinez` keep, over shifted values.
/// A step is the number of a plane, and a cell is a place in the block.
///
/// Of each plane up to seven rows wait as samples. When an eighth comes, all are added together, so that the sums
/// are read and written once for eight rows.
/// A reader adds the rows that wait for a cell to the copy that it hands out.
/// For a checkpoint 64 cells at a time are copied, with all that waits for them, column by column.
///
/// Each kind of sums lies in a list of its own, plane after plane, each plane's in columns that are as long as the
/// plane.
/// With p parameters and t thresholds a cell takes 68 + 32 · p + 4 · t bytes, and 16 · (p + 2) for the rows that wait.
#[derive(Drop)]
pub struct Field {
    shape: Shape,
    rank: u32,
    places: u32,
    counts: Vec<u32>,
    waiting: Vec<u32>,
    sums: Vec<u64>,
    ends: Vec<u16>,
    numbers: Vec<u32>,
    samples: Vec<u16>,
    ghost kept: { IsField shape rank places counts.items waiting.items
        sums.items ends.items numbers.items samples.items },
    ghost sized: { AreSizes shape },
}

impl RowFold for Field {
    ghost use Rattle.mls_ckpt.specs.CellParts.{part_at, sums_part};
    ghost use Rattle.mls_field.specs.Spelled.{part_of_field};
    ghost use Rattle.mls_field.specs.Stands.{shape_of, rank_of, row_count, StandsFor};

    ghost shape_of = { shape_of };

    ghost rank_of = { rank_of };

    ghost row_count = { row_count };

    ghost stands = { StandsFor };

    ghost part = { part_of_field };

    ghost part_at = { part_at };

    ghost part_of = { sums_part };

    fn new(alloc: Global, shape: &Shape, rank: u32) -> Result<Field, NoMemory> {
        let block = shape.block(rank);
        let places = block.end - block.first;
        let planes = shape.planes() as usize;
        let cells = planes * places as usize;
        let rows = shape.parameters() as usize + 2;
        let counts = vec![in alloc; 0u32; planes]?;
        let waiting = vec![in alloc; 0u32; planes]?;
        let sums = vec![in alloc; 0u64; 4 * rows * cells]?;
        let mut ends = vec![in alloc; 0u16; EXTREMA_NUMBERS * cells]?;
        let numbers = vec![in alloc; 0u32; shape.thresholds() as usize * cells]?;
        let samples = vec![in alloc; 0u16; GROUPS * rows * cells]?;
        clear_ends(ends.as_mut_slice(), planes, places as usize);
        Ok(Field {
            shape: *shape,
            rank,
            places,
            counts,
            waiting,
            sums,
            ends,
            numbers,
            samples,
        })
    }

    fn add_block<R: Rows>(&mut self, step: u32, rows: &R) {
        if self.waiting[step as usize] < 7 {
            self.keep_waiting(step, rows);
        } else {
            self.add_waiting(step, rows);
        }
    }

    fn reset(&mut self) {
        let planes = self.shape.planes() as usize;
        self.counts.as_mut_slice().fill(0);
        self.waiting.as_mut_slice().fill(0);
        self.sums.as_mut_slice().fill(0);
        clear_ends(self.ends.as_mut_slice(), planes, self.places as usize);
        self.numbers.as_mut_slice().fill(0);
    }

    fn put(&self, out: &mut Put) -> Result<(), NoMemory> {
        out.reserve(self.part_size().saturating_add(ROOM_BEHIND))?;
        let mut copies = Copies::new();
        for step in 0..self.shape.planes() {
            self.put_plane(step, &mut copies, out)?;
        }
        Ok(())
    }

    fn take(
        alloc: Global,
        shape: &Shape,
        rank: u32,
        counts: &[u32],
        from: &mut Take<'_>,
    ) -> Result<Field, RecoverFault> {
        let block = shape.block(rank);
        let places = block.end - block.first;
        let planes = shape.planes() as usize;
        let cells = planes * places as usize;
        let rows = shape.parameters() as usize + 2;
        let kept = counts.to_vec(alloc)?;
        let waiting = vec![in alloc; 0u32; planes]?;
        let mut sums = vec![in alloc; 0u64; 4 * rows * cells]?;
        let mut ends = vec![in alloc; 0u16; EXTREMA_NUMBERS * cells]?;
        let mut numbers = vec![in alloc; 0u32; shape.thresholds() as usize * cells]?;
        let samples = vec![in alloc; 0u16; GROUPS * rows * cells]?;
        let start = *from;
        let read = take_planes(
            sums.as_mut_slice(),
            ends.as_mut_slice(),
            numbers.as_mut_slice(),
            shape,
            counts,
            places as usize,
            from,
        );
        if let Err(fault) = read {
            *from = start;
            return Err(fault);
        }
        Ok(Field {
            shape: *shape,
            rank,
            places,
            counts: kept,
            waiting,
            sums,
            ends,
            numbers,
            samples,
        })
    }

    fn part_laws() {}
}

impl Field {
    ghost use Rattle.std.specs.Prelude.{◌≡◌, ℕ, ◌+◌, ◌*◌, ◌<◌, ◌≤◌, length, slice_index};
    ghost use Rattle.mls_model.specs.Studies.{planes};
    ghost use Rattle.mls_model.specs.Blocks.{block, width};
    ghost use Rattle.mls_model.specs.Standing.{Table};
    ghost use Rattle.mls_model.specs.Statistics.{variance_top, third_top};
    ghost use Rattle.mls_power.specs.Standing.{count_of, StandsFor as PowerStandsFor, ArePowers};
    ghost use Rattle.mls_power.specs.ExtremaStanding.{ExtremaStandFor};
    ghost use Rattle.mls_power.specs.ExceedStanding.{exceed_count_of, ExceedStandsFor};
    ghost use Rattle.mls_cov.specs.Standing.{count_of as martinez_count_of, parameters_of};
    ghost use Rattle.mls_cov.specs.Standing.{StandsFor as MartinezStandsFor};
    ghost use Rattle.mls_field.specs.Stands.{shape_of, rank_of, row_count, StandsFor};
    ghost use Rattle.mls_field.specs.ColumnSums.{sums_size};
    ghost use Rattle.mls_field.specs.Gathered.{plane_start};
    ghost use Rattle.mls_field.specs.Kinds.{SumsWithin};
    ghost use Rattle.mls_field.specs.OneCell.{SameFront};
    ghost use Rattle.mls_field.specs.ShiftedRows.{shifted_outputs};
    ghost use Rattle.mls_field.specs.FieldSteps.{CountsOneMore, StandsForMore, values_of, AreOutputs};
    ghost use Rattle.mls_field.specs.Kept.{sums_in_cell, ends_in_cell, numbers_in_cell, sums_at};
    ghost use Rattle.mls_field.specs.Kept.{HasPowers, HasEnds, HasNumbers, HasProducts, HasValuePowers};
    ghost use Rattle.mls_model.specs.CellSums.{sums_of};
    ghost use Rattle.std.specs.Prelude.{OnOk};
    ghost use Rattle.mls_ckpt.specs.Reading.{texts};
    ghost use Rattle.mls_ckpt.specs.CellParts.{cell_text};
    ghost use Rattle.mls_field.specs.Spelled.{cells_of_plane, part_of_field};
    ghost use Rattle.mls_field.specs.PutBytes.{Grown};
    ghost use Rattle.mls_field.specs.PutCells.{HoldSumsOf, HoldEndsOf, HoldNumbersOf, PutsCells};
    ghost use Rattle.mls_model.specs.SumsText.{height, variance_top_of, third_top_of};

    // Puts a row at each place of a plane with those that wait.
    fn keep_waiting<R: Rows>(&mut self, step: u32, rows: &R)
        requires plane_in { step < planes (shape_of self.old) }
        requires rows { R.row_count rows.now ≡ (shape_of self.old).parameters + 2 }
        requires cells { R.place_count rows.now ≡ width (block (shape_of self.old) (rank_of self.old)) }
        requires room { row_count self.old step < 65535 }
        requires waiting { slice_index self.old.waiting.items step < 7 }
        ensures shape { shape_of self.new ≡ shape_of self.old }
        ensures rank { rank_of self.new ≡ rank_of self.old }
        ensures counted { CountsOneMore self.old self.new step }
        ensures stands { StandsForMore self.old self.new step (R.row_count rows.now) (R.sample rows.now) }
    {
        let plane = step as usize;
        let stride = (self.shape.parameters() as usize + 2) * self.places as usize;
        let waiting = self.waiting[plane];
        let start = self.first_sample(step) + waiting as usize * stride;
        gather(
            self.samples.as_mut_slice(),
            start,
            self.shape.signed(),
            rows,
        );
        self.counts[plane] += 1;
        self.waiting[plane] = waiting + 1;
    }

    // Adds all rows that wait for a plane, and with them a row at each place.
    fn add_waiting<R: Rows>(&mut self, step: u32, rows: &R)
        requires plane_in { step < planes (shape_of self.old) }
        requires rows { R.row_count rows.now ≡ (shape_of self.old).parameters + 2 }
        requires cells { R.place_count rows.now ≡ width (block (shape_of self.old) (rank_of self.old)) }
        requires room { row_count self.old step < 65535 }
        requires waiting { slice_index self.old.waiting.items step ≡ 7 }
        ensures shape { shape_of self.new ≡ shape_of self.old }
        ensures rank { rank_of self.new ≡ rank_of self.old }
        ensures counted { CountsOneMore self.old self.new step }
        ensures stands { StandsForMore self.old self.new step (R.row_count rows.now) (R.sample rows.now) }
    {
        let plane = step as usize;
        let places = self.places as usize;
        let shape = self.shape;
        let parameters = shape.parameters();
        let stride = (parameters as usize + 2) * places;
        let start = plane * (GROUPS * stride);
        gather(
            self.samples.as_mut_slice(),
            start + 7 * stride,
            shape.signed(),
            rows,
        );
        let samples = self.samples.as_slice();
        let row = plane * (8 + 4 * parameters as usize);
        add_to_sums(
            self.sums.as_mut_slice(),
            row,
            places,
            parameters,
            samples,
            start,
        );
        add_to_ends(
            self.ends.as_mut_slice(),
            plane * EXTREMA_NUMBERS,
            places,
            parameters,
            samples,
            start,
        );
        let row = plane * shape.thresholds() as usize;
        add_to_numbers(
            self.numbers.as_mut_slice(),
            row,
            places,
            &shape,
            samples,
            start,
        );
        self.counts[plane] += 1;
        self.waiting[plane] = 0;
    }

    /// How many rows were added to a plane.
    pub fn rows(&self, step: u32) -> u32
        requires { step < planes (shape_of self.now) }
        ensures value { result ≡ row_count self.now step }
        ensures few { result ≤ 65535 }
        ensures kept { (place : ℕ) → (sums_at self.now step place).rows ≡ result }
        ensures sums { let s = shape_of self.now in
            (t : Table) → StandsFor self.now t → (place : ℕ) → place < width (block s (rank_of self.now)) →
            sums_at self.now step place ≡ sums_of s.parameters s.thresholds (t step place) }
        ensures table { let s = shape_of self.now in
            (t : Table) → StandsFor self.now t → (place : ℕ) → place < width (block s (rank_of self.now)) →
            length (t step place) ≡ result }
    {
        self.counts[step as usize]
    }

    // Where the samples that wait for a plane begin.
    fn first_sample(&self, step: u32) -> usize
        requires { step < planes (shape_of self.now) }
        ensures value { result ≡ plane_start ((shape_of self.now).parameters + 2) self.now.places step }
        ensures fits { let s = shape_of self.now in
            result + (s.parameters + 2) * self.now.places * 8 ≤ length self.now.samples.items }
    {
        let stride = (self.shape.parameters() as usize + 2) * self.places as usize;
        step as usize * (GROUPS * stride)
    }

    // How many rows wait for a plane.
    fn waiting_rows(&self, step: u32) -> u32
        requires { step < planes (shape_of self.now) }
        ensures value { result ≡ slice_index self.now.waiting.items step }
        ensures few { result ≤ 7 }
    {
        self.waiting[step as usize]
    }

    // The sums of a cell, with the rows that wait for it, in the front of an array.
    fn whole_sums(&self, step: u32, cell: u32) -> [u64; MOST_SUMS]
        requires step_in { step < planes (shape_of self.now) }
        requires cell_in { cell < width (block (shape_of self.now) (rank_of self.now)) }
        ensures front { SameFront (sums_size (shape_of self.now).parameters) result (sums_in_cell self.now step cell) }
        ensures range { SumsWithin (shape_of self.now).parameters (row_count self.now step) result }
    {
        let parameters = self.shape.parameters();
        let places = self.places as usize;
        let place = cell as usize;
        let size = 8 + 4 * parameters as usize;
        let start = self.first_sample(step);
        let waiting = self.waiting_rows(step);
        let samples = self.samples.as_slice();
        let mut sums = read_sums(
            self.sums.as_slice(),
            step as usize * size,
            size,
            places,
            place,
        );
        add_rows_to_sums(
            &mut sums, parameters, samples, start, places, place, waiting,
        );
        sums
    }

    // The least and the greatest sample of a cell, with the rows that wait for it.
    fn whole_ends(&self, step: u32, cell: u32) -> [u16; EXTREMA_NUMBERS]
        requires step_in { step < planes (shape_of self.now) }
        requires cell_in { cell < width (block (shape_of self.now) (rank_of self.now)) }
        ensures { SameFront 2 result (ends_in_cell self.now step cell) }
    {
        let parameters = self.shape.parameters();
        let places = self.places as usize;
        let place = cell as usize;
        let start = self.first_sample(step);
        let waiting = self.waiting_rows(step);
        let samples = self.samples.as_slice();
        let row = step as usize * EXTREMA_NUMBERS;
        let mut ends = read_ends(self.ends.as_slice(), row, places, place);
        add_rows_to_ends(
            &mut ends, parameters, samples, start, places, place, waiting,
        );
        ends
    }

    // The numbers of a cell above thresholds, with the rows that wait for it, in the front of an array.
    fn whole_numbers(&self, step: u32, cell: u32) -> [u32; MOST_THRESHOLDS]
        requires step_in { step < planes (shape_of self.now) }
        requires cell_in { cell < width (block (shape_of self.now) (rank_of self.now)) }
        ensures { SameFront (length (shape_of self.now).thresholds) result (numbers_in_cell self.now step cell) }
    {
        let places = self.places as usize;
        let place = cell as usize;
        let size = self.shape.thresholds() as usize;
        let start = self.first_sample(step);
        let waiting = self.waiting_rows(step);
        let samples = self.samples.as_slice();
        let row = step as usize * size;
        let mut numbers = read_numbers(self.numbers.as_slice(), row, size, places, place);
        add_rows_to_numbers(
            &mut numbers,
            &self.shape,
            samples,
            start,
            places,
            place,
            waiting,
        );
        numbers
    }

    // Copies the sums of so many cells, from a place on, with the rows that wait for them.
    fn copy_sums(&self, step: u32, from: usize, count: usize, sums: &mut [u64; BLOCK_SUMS])
        requires step_in { step < planes (shape_of self.now) }
        requires inside { from + count ≤ width (block (shape_of self.now) (rank_of self.now)) }
        requires few { count ≤ 64 }
        ensures { HoldSumsOf self.now step from count sums.new }
    {
        let parameters = self.shape.parameters();
        let places = self.places as usize;
        let size = 8 + 4 * parameters as usize;
        let row = step as usize * size;
        copy_sums(sums, self.sums.as_slice(), row, size, places, from, count);
        add_waiting_to_sums(
            sums,
            count,
            parameters,
            self.samples.as_slice(),
            self.first_sample(step),
            places,
            from,
            self.waiting_rows(step),
        );
    }

    // Copies their least and greatest samples.
    fn copy_ends(&self, step: u32, from: usize, count: usize, ends: &mut [u16; BLOCK_ENDS])
        requires step_in { step < planes (shape_of self.now) }
        requires inside { from + count ≤ width (block (shape_of self.now) (rank_of self.now)) }
        requires few { count ≤ 64 }
        ensures { HoldEndsOf self.now step from count ends.new }
    {
        let places = self.places as usize;
        let row = step as usize * EXTREMA_NUMBERS;
        copy_ends(ends, self.ends.as_slice(), row, places, from, count);
        add_waiting_to_ends(
            ends,
            count,
            self.shape.parameters(),
            self.samples.as_slice(),
            self.first_sample(step),
            places,
            from,
            self.waiting_rows(step),
        );
    }

    // Copies their numbers above thresholds.
    fn copy_numbers(&self, step: u32, from: usize, count: usize, numbers: &mut [u32; BLOCK_NUMBERS])
        requires step_in { step < planes (shape_of self.now) }
        requires inside { from + count ≤ width (block (shape_of self.now) (rank_of self.now)) }
        requires few { count ≤ 64 }
        ensures { HoldNumbersOf self.now step from count numbers.new }
    {
        let places = self.places as usize;
        let size = self.shape.thresholds() as usize;
        let row = step as usize * size;
        copy_numbers(
            numbers,
            self.numbers.as_slice(),
            row,
            size,
            places,
            from,
            count,
        );
        add_waiting_to_numbers(
            numbers,
            count,
            &self.shape,
            self.samples.as_slice(),
            self.first_sample(step),
            places,
            from,
            self.waiting_rows(step),
        );
    }

    // Appends the sums of so many cells, from a place on, which were copied.
    fn put_copied(
        &self,
        step: u32,
        from: usize,
        count: usize,
        sums: &[u64; BLOCK_SUMS],
        ends: &[u16; BLOCK_ENDS],
        numbers: &[u32; BLOCK_NUMBERS],
        bytes: &mut [u8; CELL_BYTES],
        out: &mut Put,
    ) -> Result<(), NoMemory>
        requires step_in { step < planes (shape_of self.now) }
        requires inside { from + count ≤ width (block (shape_of self.now) (rank_of self.now)) }
        requires few { count ≤ 64 }
        requires sums { HoldSumsOf self.now step from count sums.now }
        requires ends { HoldEndsOf self.now step from count ends.now }
        requires numbers { HoldNumbersOf self.now step from count numbers.now }
        ensures { OnOk result (PutsCells self.now step from count out.old out.new) }
    {
        for place in 0..count {
            let size = put_cell(bytes, &self.shape, sums, ends, numbers, place);
            out.extend_from_slice(&bytes[..size])?;
        }
        Ok(())
    }

    // Appends the sums of so many cells, from a place on, with the rows that wait for them.
    fn put_cells(
        &self,
        step: u32,
        from: usize,
        count: usize,
        copies: &mut Copies,
        out: &mut Put,
    ) -> Result<(), NoMemory>
        requires step_in { step < planes (shape_of self.now) }
        requires inside { from + count ≤ width (block (shape_of self.now) (rank_of self.now)) }
        requires few { count ≤ 64 }
        ensures { OnOk result (PutsCells self.now step from count out.old out.new) }
    {
        self.copy_sums(step, from, count, &mut copies.sums);
        self.copy_ends(step, from, count, &mut copies.ends);
        self.copy_numbers(step, from, count, &mut copies.numbers);
        self.put_copied(
            step,
            from,
            count,
            &copies.sums,
            &copies.ends,
            &copies.numbers,
            &mut copies.bytes,
            out,
        )
    }

    // Appends the sums of the cells of a plane.
    fn put_plane(&self, step: u32, copies: &mut Copies, out: &mut Put) -> Result<(), NoMemory>
        requires { step < planes (shape_of self.now) }
        ensures { OnOk result (Grown out.old out.new (texts cell_text (cells_of_plane self.now step))) }
    {
        let places = self.places as usize;
        let mut from = 0;
        while from < places {
            let count = BLOCK.min(places - from);
            self.put_cells(step, from, count, copies, out)?;
            from += count;
        }
        Ok(())
    }

    // How many bytes its part of a checkpoint has.
    fn part_size(&self) -> usize
        ensures { result ≡ length (part_of_field self.now) }
    {
        let thresholds = self.shape.thresholds() as usize;
        let parameters = self.shape.parameters() as usize;
        let cells = self.shape.planes() as usize * self.places as usize;
        (84 + 4 * thresholds + 32 * parameters) * cells
    }

    /// The power sums of a cell, over shifted values.
    pub fn power(&self, step: u32, cell: u32) -> Power
        requires step_in { step < planes (shape_of self.now) }
        requires cell_in { cell < width (block (shape_of self.now) (rank_of self.now)) }
        ensures count { count_of result ≡ 2 * row_count self.now step }
        ensures kept { HasPowers (sums_at self.now step cell) result }
        ensures sums { (t : Table) → StandsFor self.now t → PowerStandsFor result (shifted_outputs (t step cell)) }
    {
        let sums = self.whole_sums(step, cell);
        power_of(&sums, self.shape.parameters(), self.rows(step))
    }

    /// The least and the greatest sample of a cell, as shifted values.
    pub fn extrema(&self, step: u32, cell: u32) -> Extrema
        requires step_in { step < planes (shape_of self.now) }
        requires cell_in { cell < width (block (shape_of self.now) (rank_of self.now)) }
        ensures kept { HasEnds (sums_at self.now step cell) result }
        ensures ends { (t : Table) → StandsFor self.now t → ExtremaStandFor result (shifted_outputs (t step cell)) }
        ensures outputs { (t : Table) → StandsFor self.now t → AreOutputs self.now (t step cell) }
    {
        let ends = self.whole_ends(step, cell);
        Extrema::unpacked(&ends)
    }

    /// How many samples of a cell are above each threshold.
    pub fn exceed(&self, step: u32, cell: u32) -> Exceed
        requires step_in { step < planes (shape_of self.now) }
        requires cell_in { cell < width (block (shape_of self.now) (rank_of self.now)) }
        ensures count { exceed_count_of result ≡ 2 * row_count self.now step }
        ensures kept { HasNumbers (length (shape_of self.now).thresholds) (sums_at self.now step cell) result }
        ensures numbers { let thresholds = (shape_of self.now).thresholds in
            (t : Table) → StandsFor self.now t → ExceedStandsFor thresholds result (shifted_outputs (t step cell)) }
        ensures outputs { (t : Table) → StandsFor self.now t → AreOutputs self.now (t step cell) }
    {
        let numbers = self.whole_numbers(step, cell);
        let size = self.shape.thresholds() as usize;
        Exceed::unpacked(2 * self.rows(step), &numbers[..size])
    }

    /// The sums of which the indices of a cell are made, over shifted values.
    pub fn martinez(&self, step: u32, cell: u32) -> Martinez
        requires step_in { step < planes (shape_of self.now) }
        requires cell_in { cell < width (block (shape_of self.now) (rank_of self.now)) }
        ensures count { martinez_count_of result ≡ row_count self.now step }
        ensures parameters { parameters_of result ≡ (shape_of self.now).parameters }
        ensures kept { HasProducts (shape_of self.now).parameters (sums_at self.now step cell) result }
        ensures sums { (t : Table) → StandsFor self.now t → MartinezStandsFor result (t step cell) }
    {
        let sums = self.whole_sums(step, cell);
        Martinez::unpacked(self.rows(step), self.shape.parameters(), &sums)
    }

    /// The power sums of a cell, over values.
    pub fn powers(&self, step: u32, cell: u32) -> Powers
        requires step_in { step < planes (shape_of self.now) }
        requires cell_in { cell < width (block (shape_of self.now) (rank_of self.now)) }
        ensures kept { HasValuePowers (height (shape_of self.now).signed) (sums_at self.now step cell) result }
        ensures values { (t : Table) → StandsFor self.now t → ArePowers result (values_of self.now (t step cell)) }
    {
        self.power(step, cell).powers(self.shape.signed())
    }

    /// V of a cell's values: with N values, N · V is the sum of (N · w − p1)².
    pub fn variance_top(&self, step: u32, cell: u32) -> i128
        requires step_in { step < planes (shape_of self.now) }
        requires cell_in { cell < width (block (shape_of self.now) (rank_of self.now)) }
        ensures kept { result ≡ variance_top_of (sums_at self.now step cell) }
        ensures values { (t : Table) → StandsFor self.now t →
            result ≡ variance_top (values_of self.now (t step cell)) }
    {
        self.power(step, cell).variance_top()
    }

    /// U of a cell's values: with N values, N · U is the sum of (N · w − p1)³.
    pub fn third_top(&self, step: u32, cell: u32) -> i128
        requires step_in { step < planes (shape_of self.now) }
        requires cell_in { cell < width (block (shape_of self.now) (rank_of self.now)) }
        ensures kept { result ≡ third_top_of (sums_at self.now step cell) }
        ensures values { (t : Table) → StandsFor self.now t →
            result ≡ third_top (values_of self.now (t step cell)) }
    {
        self.power(step, cell).third_top()
    }
}
