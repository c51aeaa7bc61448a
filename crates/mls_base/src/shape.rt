//! The numbers of a study that its ranks work by.

ghost use Rattle.std.specs.Prelude.{◌≡◌, ◌<◌, ◌↔◌, ◌*◌, ◌≤◌, length, slice_index, IsSome, IfSome, Some, IsTrue, nat_le, ◌==◌};
ghost use Rattle.std.specs.List.{list_all, find};
ghost use Rattle.mls_model.specs.Studies.{AreSizes, planes, plane_of, rises};
ghost use Rattle.mls_model.specs.Blocks.{nth_span, block, part, overlap, meet, rank_of, client_of, is_in_span};
ghost use Rattle.mls_model.specs.Numbers.{below};
ghost use Rattle.mls_base.specs.Ranges.{AreCounts, AreLaunched, AreVaried, AreProducts};
ghost use Rattle.mls_base.specs.Shapes.{sizes_of, with_ranks, AreNumbers, AreKept};

use crate::limits::{
    MOST_CELLS, MOST_FIELDS, MOST_GROUPS, MOST_LIVES, MOST_MARKS, MOST_PARAMETERS, MOST_SILENCE,
    MOST_SLOTS, MOST_STEPS, MOST_THRESHOLDS, MOST_WORKERS,
};
use crate::numbers::Numbers;
use mls_model::blocks::Span;
use std::marker::Model;

/// The numbers of a study.
#[derive(Clone, Copy, Debug)]
pub struct Shape {
    cells: u32,
    steps: u32,
    groups: u32,
    parameters: u32,
    ranks: u32,
    clients: u32,
    slots: u32,
    silence: u32,
    lives: u32,
    thresholds: u32,
    threshold: [u16; 8],
    signed: bool,
    fields: u32,
}

impl Model for Shape {
    ghost use Rattle.std.specs.Prelude.{◌≡◌, ◌≤◌, take, length};
    ghost use Rattle.mls_model.specs.Studies.{Sizes, AreSizes};
    ghost use Rattle.std.specs.Prelude.{ℕ, List};
    ghost use Rattle.std.proofs.Common.{ap};
    ghost use Rattle.mls_base.specs.Shapes.{padded, unpadded};

    ghost Value = { Sizes };

    ghost view = { λ s. record { cells = s.cells; steps = s.steps; groups = s.groups; parameters = s.parameters; ranks = s.ranks; clients = s.clients; slots = s.slots; silence = s.silence; lives = s.lives; thresholds = take s.thresholds s.threshold; signed = s.signed; fields = s.fields } };

    ghost invariant = { λ s. (s.threshold ≡ padded (take s.thresholds s.threshold)) × (s.thresholds ≤ 8) × AreSizes (record { cells = s.cells; steps = s.steps; groups = s.groups; parameters = s.parameters; ranks = s.ranks; clients = s.clients; slots = s.slots; silence = s.silence; lives = s.lives; thresholds = take s.thresholds s.threshold; signed = s.signed; fields = s.fields }) };

    ghost inverse = { λ v. record { cells = v.cells; steps = v.steps; groups = v.groups; parameters = v.parameters; ranks = v.ranks; clients = v.clients; slots = v.slots; silence = v.silence; lives = v.lives; thresholds = length v.thresholds; threshold = padded v.thresholds; signed = v.signed; fields = v.fields } };

    ghost inverse_ok = { λ a kept. ap (λ (p : ℕ × List ℕ). record { cells = a.cells; steps = a.steps; groups = a.groups; parameters = a.parameters; ranks = a.ranks; clients = a.clients; slots = a.slots; silence = a.silence; lives = a.lives; thresholds = p.0; threshold = p.1; signed = a.signed; fields = a.fields }) (unpadded a.thresholds a.threshold kept.0 kept.1) };
}

impl Shape {
    /// The shape of these numbers, or None exactly where a number or a product is out of range, the thresholds
    /// don't strictly rise, or a place behind them isn't 0.
    pub fn of(numbers: &Numbers) -> Option<Shape>
        ensures valid { IsSome result ↔ AreNumbers numbers.now }
        ensures value { IfSome result (λ shape. shape ≡ sizes_of numbers.now) }
    {
        if have_counts(numbers)
            && have_launch(numbers)
            && have_varied(numbers)
            && have_products(numbers)
            && have_thresholds(numbers)
        {
            Some(Shape {
                cells: numbers.cells,
                steps: numbers.steps,
                groups: numbers.groups,
                parameters: numbers.parameters,
                ranks: numbers.ranks,
                clients: numbers.clients,
                slots: numbers.slots,
                silence: numbers.silence,
                lives: numbers.lives,
                thresholds: numbers.thresholds,
                threshold: numbers.threshold,
                signed: numbers.signed,
                fields: numbers.fields,
            })
        } else {
            None
        }
    }

    /// The shape with this number of ranks, or None exactly where a study with it isn't valid.
    pub fn with_ranks(&self, ranks: u32) -> Option<Shape>
        ensures valid { IsSome result ↔ AreSizes (with_ranks self.now ranks) }
        ensures value { IfSome result (λ shape. shape ≡ with_ranks self.now ranks) }
    {
        Shape::of(&self.numbers(ranks))
    }

    /// The numbers that make this shape, but for the ranks.
    fn numbers(&self, ranks: u32) -> Numbers
        ensures value { sizes_of result ≡ with_ranks self.now ranks }
        ensures valid { AreNumbers result ↔ AreSizes (with_ranks self.now ranks) }
    {
        Numbers {
            cells: self.cells,
            steps: self.steps,
            groups: self.groups,
            parameters: self.parameters,
            ranks,
            clients: self.clients,
            slots: self.slots,
            silence: self.silence,
            lives: self.lives,
            thresholds: self.thresholds,
            threshold: self.threshold,
            signed: self.signed,
            fields: self.fields,
        }
    }

    /// The numbers of a shape are within their ranges.
    pub fn valid(&self)
        ensures { AreSizes self.now }
    {
        let _ = &self.cells;
    }

    /// How many cells the mesh has.
    pub fn cells(&self) -> u32
        ensures value { result ≡ self.now.cells }
        ensures valid { AreSizes self.now }
    {
        self.cells
    }

    /// How many time steps a group has.
    pub fn steps(&self) -> u32
        ensures value { result ≡ self.now.steps }
        ensures valid { AreSizes self.now }
    {
        self.steps
    }

    /// How many groups there may be.
    pub fn groups(&self) -> u32
        ensures value { result ≡ self.now.groups }
        ensures valid { AreSizes self.now }
    {
        self.groups
    }

    /// How many parameters vary.
    pub fn parameters(&self) -> u32
        ensures value { result ≡ self.now.parameters }
        ensures valid { AreSizes self.now }
    {
        self.parameters
    }

    /// How many ranks the mesh is cut into blocks for.
    pub fn ranks(&self) -> u32
        ensures value { result ≡ self.now.ranks }
        ensures valid { AreSizes self.now }
    {
        self.ranks
    }

    /// How many clients send a group's samples.
    pub fn clients(&self) -> u32
        ensures value { result ≡ self.now.clients }
        ensures valid { AreSizes self.now }
    {
        self.clients
    }

    /// How many groups run at once.
    pub fn slots(&self) -> u32
        ensures value { result ≡ self.now.slots }
        ensures valid { AreSizes self.now }
    {
        self.slots
    }

    /// After how many seconds of silence a group is taken for dead.
    pub fn silence(&self) -> u32
        ensures value { result ≡ self.now.silence }
        ensures valid { AreSizes self.now }
    {
        self.silence
    }

    /// How often a group may be started.
    pub fn lives(&self) -> u32
        ensures value { result ≡ self.now.lives }
        ensures valid { AreSizes self.now }
    {
        self.lives
    }

    /// How many fields each cell has at a step.
    pub fn fields(&self) -> u32
        ensures value { result ≡ self.now.fields }
        ensures valid { AreSizes self.now }
    {
        self.fields
    }

    /// How many planes there are: one for each step and field.
    pub fn planes(&self) -> u32
        ensures value { result ≡ planes self.now }
        ensures valid { AreSizes self.now }
    {
        self.steps * self.fields
    }

    /// Whether samples stand for signed values.
    pub fn signed(&self) -> bool
        ensures value { result ≡ self.now.signed }
        ensures valid { AreSizes self.now }
    {
        self.signed
    }

    /// How many thresholds there are, at most 8.
    pub fn thresholds(&self) -> u32
        ensures value { result ≡ length self.now.thresholds }
        ensures valid { AreSizes self.now }
    {
        self.thresholds
    }

    /// A threshold, as a shifted value.
    pub fn threshold(&self, i: u32) -> u16
        requires { i < length self.now.thresholds }
        ensures value { result ≡ slice_index self.now.thresholds i }
        ensures valid { AreSizes self.now }
    {
        self.threshold[i as usize]
    }

    /// The number of the plane of a step and a field.
    pub fn plane(&self, step: u32, field: u32) -> u32
        requires step_in { step < self.now.steps }
        requires field_in { field < self.now.fields }
        ensures value { result ≡ plane_of self.now step field }
        ensures within { result < planes self.now }
        ensures valid { AreSizes self.now }
    {
        step * self.fields + field
    }

    /// The block of a rank.
    pub fn block(&self, rank: u32) -> Span
        requires { rank < self.now.ranks }
        ensures value { result ≡ block self.now rank }
        ensures some { result.first < result.end }
        ensures within { result.end ≤ self.now.cells }
        ensures valid { AreSizes self.now }
    {
        nth_span(self.cells, self.ranks, rank)
    }

    /// The part of a client.
    pub fn part(&self, client: u32) -> Span
        requires { client < self.now.clients }
        ensures value { result ≡ part self.now client }
        ensures some { result.first < result.end }
        ensures within { result.end ≤ self.now.cells }
        ensures valid { AreSizes self.now }
    {
        nth_span(self.cells, self.clients, client)
    }

    /// The rank whose block holds a cell.
    #[inline]
    pub fn rank_of(&self, cell: u32) -> u32
        requires { cell < self.now.cells }
        ensures value { rank_of self.now cell ≡ Some result }
        ensures within { result < self.now.ranks }
        ensures first { (block self.now result).first ≤ cell }
        ensures end { cell < (block self.now result).end }
    {
        holder(self.cells, self.ranks, cell)
    }

    /// The client whose part holds a cell.
    #[inline]
    pub fn client_of(&self, cell: u32) -> u32
        requires { cell < self.now.cells }
        ensures value { client_of self.now cell ≡ Some result }
        ensures within { result < self.now.clients }
        ensures first { (part self.now result).first ≤ cell }
        ensures end { cell < (part self.now result).end }
    {
        holder(self.cells, self.clients, cell)
    }

    /// The cells of a rank's block that a client sends. Where there are none, `first` and `end` are the same.
    pub fn overlap(&self, rank: u32, client: u32) -> Span
        requires rank_in { rank < self.now.ranks }
        requires client_in { client < self.now.clients }
        ensures value { result ≡ overlap self.now rank client }
        ensures ordered { result.first ≤ result.end }
        ensures within { result.end ≤ self.now.cells }
        ensures valid { AreSizes self.now }
    {
        let block = self.block(rank);
        let part = self.part(client);
        let first = block.first.max(part.first);
        Span {
            first,
            end: first.max(block.end.min(part.end)),
        }
    }
}

/// Span `i` of `n` over the cells.
fn nth_span(cells: u32, n: u32, i: u32) -> Span
    requires share_in { i < n }
    requires have_cells { n ≤ cells }
    ensures value { result ≡ nth_span cells n i }
    ensures some { result.first < result.end }
    ensures within { result.end ≤ cells }
{
    let cells = cells as u64;
    let first = i as u64 * cells / n as u64;
    let end = (i as u64 + 1) * cells / n as u64;
    Span {
        first: first as u32,
        end: end as u32,
    }
}

/// The number of the one of `n` spans over the cells that holds a cell.
#[inline]
fn holder(cells: u32, n: u32, cell: u32) -> u32
    requires some { 1 ≤ n }
    requires have_cells { n ≤ cells }
    requires cell_in { cell < cells }
    ensures value { find (λ i. is_in_span (nth_span cells n i) cell) (below n) ≡ Some result }
    ensures within { result < n }
    ensures first { (nth_span cells n result).first ≤ cell }
    ensures end { cell < (nth_span cells n result).end }
{
    (((cell as u64 + 1) * n as u64 - 1) / cells as u64) as u32
}

/// Whether a number is from 1 to `most`.
fn is_up_to(n: u32, most: u32) -> bool
    ensures { IsTrue result ↔ ((1 ≤ n) × (n ≤ most)) }
{
    1 <= n && n <= most
}

/// Whether the mesh, the steps, the groups and those who work on them are in their ranges.
fn have_counts(n: &Numbers) -> bool
    ensures { IsTrue result ↔ AreCounts n.now.cells n.now.steps n.now.groups n.now.ranks n.now.clients }
{
    is_up_to(n.cells, MOST_CELLS)
        && is_up_to(n.steps, MOST_STEPS)
        && is_up_to(n.groups, MOST_GROUPS)
        && is_up_to(n.ranks, n.cells.min(MOST_WORKERS))
        && is_up_to(n.clients, n.cells.min(MOST_WORKERS))
}

/// Whether the numbers by which groups are launched are.
fn have_launch(n: &Numbers) -> bool
    ensures { IsTrue result ↔ AreLaunched n.now.slots n.now.silence n.now.lives }
{
    is_up_to(n.slots, MOST_SLOTS)
        && is_up_to(n.silence, MOST_SILENCE)
        && is_up_to(n.lives, MOST_LIVES)
}

/// Whether the numbers of parameters and fields are.
fn have_varied(n: &Numbers) -> bool
    ensures { IsTrue result ↔ AreVaried n.now.parameters n.now.fields }
{
    is_up_to(n.parameters, MOST_PARAMETERS) && is_up_to(n.fields, MOST_FIELDS)
}

/// Whether the products are.
fn have_products(n: &Numbers) -> bool
    requires counts { AreCounts n.now.cells n.now.steps n.now.groups n.now.ranks n.now.clients }
    requires varied { AreVaried n.now.parameters n.now.fields }
    ensures { IsTrue result ↔ AreProducts n.now.cells n.now.steps n.now.groups n.now.ranks n.now.fields }
{
    let planes = n.steps as u64 * n.fields as u64;
    n.cells as u64 * planes <= MOST_CELLS as u64
        && n.groups as u64 * planes * n.ranks as u64 <= MOST_MARKS
}

/// Whether each number is below the one after it.
pub fn is_rising(numbers: &[u16]) -> bool
    ensures value { result ≡ rises numbers.now }
    ensures fit { IsTrue (list_all (λ t. nat_le t 65535) numbers.now) }
{
    for i in 1..numbers.len() {
        if numbers[i - 1] >= numbers[i] {
            return false;
        }
    }
    true
}

/// Whether each number is 0.
fn is_zero(numbers: &[u16]) -> bool
    ensures { result ≡ list_all (λ x. x == 0) numbers.now }
{
    numbers.iter().all(|x| *x == 0)
}

/// Whether the first `thresholds` places of `threshold` rise, and the places behind them are 0.
fn have_thresholds(n: &Numbers) -> bool
    ensures { IsTrue result ↔ AreKept n.now }
{
    if n.thresholds > MOST_THRESHOLDS {
        return false;
    }
    let (thresholds, behind) = n.threshold.split_at(n.thresholds as usize);
    is_rising(thresholds) && is_zero(behind)
}
