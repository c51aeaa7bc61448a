//! The pairs of a rank and a client that a group has connections for.

ghost use Rattle.std.specs.Prelude.{◌≡◌, ◌<◌, ◌++◌, IfOk, OnOk};
ghost use Rattle.std.specs.List.{AllByRecursion};
ghost use Rattle.mls_wire.specs.Sessions.{IsPair, pair_of, rank_pairs, pairs_of};

use mls_base::faults::NoMemory;
use mls_base::shape::Shape;
use std::alloc::Global;

/// A rank with a client whose part meets its block.
#[derive(Clone, Copy, Debug, PartialEq, Eq)]
pub struct Pair {
    pub rank: u32,
    pub client: u32,
}

/// Adds a rank with a client, where they overlap.
fn add_pair(pairs: &mut Vec<Pair>, shape: &Shape, rank: u32, client: u32) -> Result<(), NoMemory>
    requires rank_in { rank < shape.now.ranks }
    requires client_in { client < shape.now.clients }
    ensures { OnOk result (pairs.new.items ≡ pairs.old.items ++ pair_of shape.now rank client) }
{
    let cells = shape.overlap(rank, client);
    if cells.end - cells.first > 0 {
        pairs.push(Pair { rank, client })?;
        return Ok(());
    }
    Ok(())
}

/// Adds the pairs of a rank.
fn add_pairs(pairs: &mut Vec<Pair>, shape: &Shape, rank: u32) -> Result<(), NoMemory>
    requires { rank < shape.now.ranks }
    ensures { OnOk result (pairs.new.items ≡ pairs.old.items ++ rank_pairs shape.now rank) }
{
    for client in 0..shape.clients() {
        add_pair(pairs, shape, rank, client)?;
    }
    Ok(())
}

/// The pairs whose overlap isn't empty, by rank, then client.
pub fn pairs(alloc: Global, shape: &Shape) -> Result<Vec<Pair>, NoMemory>
    ensures exact { IfOk result (λ all. all.items ≡ pairs_of shape.now) }
    // They are pairs of the study.
    ensures each { IfOk result (λ all. AllByRecursion (IsPair shape.now) all.items) }
{
    let mut all = Vec::new(alloc);
    for rank in 0..shape.ranks() {
        add_pairs(&mut all, shape, rank)?;
    }
    Ok(all)
}
