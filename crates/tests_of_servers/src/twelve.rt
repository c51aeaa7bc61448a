//! Twelve connections of three groups over three ranks, compared with the fold of a tape with the same pieces.

ghost use Rattle.std.specs.Prelude.{◌≡◌, IfOk, OnOk, IsTrue};
ghost use Rattle.std.specs.List.{list_all};
ghost use Rattle.mls_wire.specs.MemLinks.{is_unused};
ghost use Rattle.mls_design.specs.Kept.{design_of};

use crate::common::{link, no_checkpoints, serve};
use mls_base::faults::NoMemory;
use mls_base::gate::OpenGate;
use mls_base::memory::{MemFiles, MemSink};
use mls_cli::melissa;
use mls_design::{Design, make_piece};
use mls_frame::{Frame, put};
use mls_result::Status;
use mls_study::{Study, read_study};
use mls_wire::{MemDoor, MemLink};
use std::alloc::{AllocError, Global};

// Ten cells in three blocks and two parts, two steps, three groups, one parameter.
const STUDY: &[u8] =
    b"cells = 10\nsteps = 2\ngroups = 3\nranks = 3\nclients = 2\nstatistics = [\"power\", \"sobol\"]\n[[parameters]]\nname = \"x\"\nlow = 0\nhigh = 9\n";

// A tape of twelve lanes begins so.
const TAPE: [u8; 10] = [77, 84, 65, 80, 0, 1, 0, 0, 0, 12];

/// The ranks and the clients whose cells they have.
const PAIRS: [(u16, u16); 4] = [(0, 0), (1, 0), (1, 1), (2, 1)];

// Each rank takes two steps of three groups. Rank 1 has cells of both clients, so one client's piece waits for the other's.
const RANKS: &str =
    "melissa-result 1\nstudy cells 10 steps 2 groups 3 parameters 1 ranks 3 clients 2\nrank 0 accepted 6 kept 0 replay 0 stale 0 repeated 0 foreign 0 0 0 0 0 0\nrank 1 accepted 6 kept 6 replay 0 stale 0 repeated 0 foreign 0 0 0 0 0 0\nrank 2 accepted 6 kept 0 replay 0 stale 0 repeated 0 foreign 0 0 0 0 0 0\nlane ";

/// The pieces of all steps of a group's life 1 that a client sends to a rank. Other numbers than the study's send none.
fn pieces(
    alloc: Global,
    study: &Study,
    design: &Design,
    group: u32,
    rank: u16,
    client: u16,
) -> Result<Vec<u8>, NoMemory>
    requires { design.now ≡ design_of study.now }
{
    study.valid();
    let shape = study.shape();
    let (rank, client) = (u32::from(rank), u32::from(client));
    let mut bytes = Vec::new(alloc);
    if group >= shape.groups() || rank >= shape.ranks() || client >= shape.clients() {
        return Ok(bytes);
    }
    for step in 0..shape.steps() {
        let piece = make_piece(alloc, study, design, group, 1, step, 0, rank, client)?;
        put(&piece, &mut bytes)?;
    }
    Ok(bytes)
}

/// Adds a client's lane of a rank to a tape.
fn add_lane(tape: &mut Vec<u8>, rank: u16, pieces: &[u8]) -> Result<(), NoMemory> {
    let Ok(length) = u32::try_from(pieces.len()) else {
        return Err(NoMemory);
    };
    tape.push(0)?;
    tape.extend_from_slice(&rank.to_be_bytes())?;
    tape.extend_from_slice(&length.to_be_bytes())?;
    tape.extend_from_slice(pieces)?;
    Ok(())
}

/// Adds a connection that greets and sends these pieces.
fn add_link(
    alloc: Global,
    links: &mut Vec<MemLink>,
    group: u32,
    rank: u16,
    client: u16,
    pieces: &[u8],
) -> Result<(), NoMemory>
    requires { IsTrue (list_all is_unused links.old.items) }
    ensures { OnOk result (IsTrue (list_all is_unused links.new.items)) }
{
    let hello = Frame::Hello {
        version: 1,
        group,
        life: 1,
        client,
        rank,
    };
    let mut greeting = Vec::new(alloc);
    put(&hello, &mut greeting)?;
    links.push(link(alloc, greeting.as_slice(), pieces, Vec::new(alloc))?)?;
    Ok(())
}

/// A connection for each group and each pair, and a tape with a lane of the same pieces for each.
fn sent(alloc: Global) -> Result<(Vec<MemLink>, Vec<u8>), NoMemory>
    ensures { IfOk result (λ sent. IsTrue (list_all is_unused sent.0.items)) }
{
    let Ok(study) = read_study(alloc, STUDY) else {
        return Err(NoMemory);
    };
    let design = Design::new(alloc, &study)?;
    let mut links = Vec::new(alloc);
    let mut tape = Vec::from_slice(alloc, &TAPE)?;
    for number in 0..12_u32 {
        let group = number / 4;
        let (rank, client) = PAIRS[number as usize % 4];
        let pieces = pieces(alloc, &study, &design, group, rank, client)?;
        add_lane(&mut tape, rank, pieces.as_slice())?;
        add_link(alloc, &mut links, group, rank, client, pieces.as_slice())?;
    }
    Ok((links, tape))
}

/// The text of a fold of the tape, or none where it wasn't done.
fn folded(alloc: Global, tape: &[u8]) -> Result<Option<Vec<u8>>, NoMemory> {
    let mut files = MemFiles::new(alloc, Vec::new(alloc));
    if files.set("study", STUDY).is_err() || files.set("tape", tape).is_err() {
        return Err(NoMemory);
    }
    let mut words = Vec::new(alloc);
    for word in ["fold", "study", "tape"] {
        words.push(String::from_str(alloc, word)?)?;
    }
    let mut sink = MemSink::new(alloc, 10_000, Vec::new(alloc))?;
    let keepers = no_checkpoints(alloc, Vec::new(alloc))?;
    let (status, _) = melissa(alloc, words.as_slice(), &mut files, &mut sink, keepers);
    if !matches!(status, Status::Done) {
        return Ok(None);
    }
    Ok(Some(Vec::from_slice(alloc, sink.bytes())?))
}

/// The text from its first cell line on, where the ranks took what they should.
fn cells(text: &[u8]) -> Option<&str> {
    let text = str::from_utf8(text).ok()?;
    let (ahead, cells) = text.split_once("\nstep 0 cell 0 ")?;
    if ahead.starts_with(RANKS) {
        Some(cells)
    } else {
        None
    }
}

#[test]
fn twelve_connections_have_the_lines_of_their_fold(rt: HostRuntime) {
    let alloc = rt.alloc();
    let (links, tape) = sent(alloc).expect(&rt, "memory");
    let folded = folded(alloc, tape.as_slice()).expect(&rt, "memory");
    let folded = folded.expect(&rt, "a text");
    let keepers = no_checkpoints(alloc, Vec::new(alloc)).expect(&rt, "memory");
    let door = MemDoor::new(alloc, links, Vec::new(alloc));
    let left = serve(&rt, alloc, STUDY, "12", door, keepers, &OpenGate).expect(&rt, "memory");
    assert!(rt; matches!(left.status, Status::Done));
    let wanted = cells(folded.as_slice()).expect(&rt, "ranks of the fold");
    let served = cells(left.text.as_slice()).expect(&rt, "ranks of the server");
    let watched = served.strip_prefix(wanted).expect(&rt, "the same cells");
    assert!(rt; watched.starts_with("melissa-watch 1\n"));
}
