//! The lines of the lanes that were served.

ghost use Rattle.std.specs.Prelude.{◌≡◌, ◌+◌, ◌<◌, ◌≤◌, length, vec_len, vec_capacity};
ghost use Rattle.mls_server.specs.Lines.{IsLineOf, AreLines, ArePlaced};

use crate::names::Server;
use mls_base::faults::NoMemory;
use mls_model::lanes::LaneLine;
use std::alloc::Global;
use std::marker::{Model, PhantomData};
use std::sync::Mutex;

/// A place for the line of each client lane of a run, and an empty list with room for all of them. Its type keeps that
/// a line stands at its own lane's place.
#[derive(Drop)]
pub struct Board<N: Server> {
    ranks: u32,
    places: Vec<Option<LaneLine>>,
    lines: Vec<LaneLine>,
    run: PhantomData<N>,
}

/// The board under its lock.
pub type BoardCell<N> = Mutex<Board<N>>;

impl<N: Server> Model for Board<N> {
    ghost use Rattle.std.specs.Prelude.{List, Option};
    ghost use Rattle.mls_model.specs.declared.lanes.LaneLine.{LaneLine};
    ghost use Rattle.mls_server.specs.Boards.{IsBoard};

    ghost Value = { List (Option LaneLine) };

    ghost view = { λ b. b.places.items };

    ghost invariant = { λ b. IsBoard N.Run b.ranks b.places b.lines };
}

/// Moves the lines that stand at their places to the end of an empty list, in order.
fn gather(places: &[Option<LaneLine>], ranks: u32, lines: &mut Vec<LaneLine>)
    requires placed { ArePlaced ranks places.now }
    requires none { vec_len lines.old ≡ 0 }
    requires room { length places.now ≤ vec_capacity lines.old }
    ensures { AreLines ranks (ranks + length places.now) lines.new.items }
{
    for at in 0..places.len() {
        match places[at] {
            Some(line) => lines.push_reserved(line),
            None => {}
        }
    }
}

impl<N: Server> Board<N> {
    /// A board with no line yet.
    pub fn new(alloc: Global, ranks: u32, connections: u32) -> Result<Board<N>, NoMemory>
        requires ranks { ranks ≡ N.sizes.ranks }
        requires lanes { ranks + connections ≡ N.lane_count }
    {
        let places = vec![in alloc; None; connections as usize]?;
        let lines = Vec::with_capacity(alloc, connections as usize)?;
        Ok(Board {
            ranks,
            places,
            lines,
            run: PhantomData,
        })
    }

    /// Keeps the line of a client lane.
    pub fn keep(&mut self, lane: u32, line: LaneLine)
        requires own { IsLineOf N.sizes.ranks lane line }
        requires client { N.sizes.ranks ≤ lane }
        requires within { lane < N.lane_count }
    {
        let place = (lane - self.ranks) as usize;
        self.places[place] = Some(line);
    }

    /// The lines in rising number of their lanes.
    pub fn into_lines(self) -> Vec<LaneLine>
        ensures { AreLines N.sizes.ranks N.lane_count result.items }
    {
        let Board {
            ranks,
            places,
            lines,
            ..
        } = self;
        let mut lines = lines;
        gather(places.as_slice(), ranks, &mut lines);
        lines
    }
}
