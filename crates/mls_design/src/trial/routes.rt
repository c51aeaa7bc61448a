//! The routes of a study.

ghost use Rattle.std.specs.Prelude.{◌≡◌, ◌<◌, ◌++◌, IfOk, OnOk};
ghost use Rattle.mls_design.specs.Trial.{route_of, rank_routes, routes};

use crate::trial::route::Route;
use mls_base::faults::NoMemory;
use mls_base::shape::Shape;
use std::alloc::Global;

/// Adds the route from a client to a rank, where there is one.
fn add_route(routes: &mut Vec<Route>, shape: &Shape, rank: u32, client: u32) -> Result<(), NoMemory>
    requires rank_in { rank < shape.now.ranks }
    requires client_in { client < shape.now.clients }
    ensures { OnOk result (routes.new.items ≡ routes.old.items ++ route_of shape.now rank client) }
{
    let cells = shape.overlap(rank, client);
    if cells.end - cells.first > 0 {
        routes.push(Route { rank, client })?;
        return Ok(());
    }
    Ok(())
}

/// Adds the routes to a rank.
fn add_routes(routes: &mut Vec<Route>, shape: &Shape, rank: u32) -> Result<(), NoMemory>
    requires { rank < shape.now.ranks }
    ensures { OnOk result (routes.new.items ≡ routes.old.items ++ rank_routes shape.now rank) }
{
    for client in 0..shape.clients() {
        add_route(routes, shape, rank, client)?;
    }
    Ok(())
}

/// All routes, rank by rank and client by client.
pub fn routes(alloc: Global, shape: &Shape) -> Result<Vec<Route>, NoMemory>
    ensures { IfOk result (λ all. all.items ≡ routes shape.now) }
{
    let mut all = Vec::new(alloc);
    for rank in 0..shape.ranks() {
        add_routes(&mut all, shape, rank)?;
    }
    Ok(all)
}
