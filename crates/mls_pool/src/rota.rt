//! A worker's lanes, taken in turn.

ghost use Rattle.std.specs.Prelude.{◌≡◌, ◌≤◌};

use mls_base::faults::NoMemory;
use mls_tape::Tape;
use std::alloc::Global;

/// A lane of a rank.
#[derive(Clone, Copy)]
pub struct Place {
    pub rank: u32,
    pub lane: u32,
}

/// A lane, with the number of its events whose turn hasn't come.
#[derive(Clone, Copy)]
struct Stock {
    place: Place,
    left: u32,
}

/// How many turns a lane has in a row. Rows are added eight at a time, with one walk over the sums: so a rank's sums
/// stay in cache for eight walks.
const TURNS_IN_A_ROW: u32 = 64;

/// A worker's lanes whose turns haven't all come, where the next turn is, and how many the lane there has in a row.
#[derive(Drop)]
pub struct Rota {
    stocks: Vec<Stock>,
    next: usize,
    stays: u32,
}

impl Rota {
    /// The lanes of one of so many workers: those whose number leaves the worker's when divided by `workers`.
    pub fn new(alloc: Global, tape: &Tape, workers: u32, worker: u32) -> Result<Rota, NoMemory>
        requires { 1 ≤ workers }
    {
        let mut stocks = Vec::new(alloc);
        for lane in 0..tape.lane_count() {
            let left = tape.events(lane);
            if lane % workers == worker && left > 0 {
                let rank = tape.lane_rank(lane);
                let place = Place { rank, lane };
                stocks.push(Stock { place, left })?;
            }
        }
        Ok(Rota {
            stocks,
            next: 0,
            stays: TURNS_IN_A_ROW,
        })
    }

    /// The lane of the next turn, or None where no event is left. Each lane has as many turns as events, 64 in a
    /// row, then the next lane's turn comes.
    pub fn turn(&mut self) -> Option<Place> {
        if self.next >= self.stocks.len() {
            self.next = 0;
        }
        if self.stocks.is_empty() {
            return None;
        }
        let Stock { place, left } = self.stocks[self.next];
        if left <= 1 {
            self.stocks.swap_remove(self.next);
            self.stays = TURNS_IN_A_ROW;
            return Some(place);
        }
        self.stocks[self.next] = Stock {
            place,
            left: left - 1,
        };
        if self.stays > 1 {
            self.stays -= 1;
        } else {
            self.stays = TURNS_IN_A_ROW;
            self.next += 1;
        }
        Some(place)
    }
}
