//! The one spelling of a frame.

ghost use Rattle.std.specs.Prelude.{◌≡◌, ℕ, ◌+◌, ◌*◌, ◌<◌, ◌≤◌, ◌^◌, [], ◌∷◌, ◌++◌, length, OnOk, OnErr, vec_len, vec_capacity};
ghost use Rattle.std.specs.List.{flat_map};
ghost use Rattle.mls_model.specs.Frames.{u16, u32, piece as piece_frame, hello, body, spelling, piece_head, longest_body, IsFrame, IsPiece};
ghost use Rattle.mls_frame.specs.Owned.{owned_frame, owned_piece};

use crate::frames::{Frame, Piece};
use byteorder::{BigEndian, ByteOrder};
use mls_base::faults::NoMemory;

/// Appends bytes for which there is room.
fn add(out: &mut Vec<u8>, bytes: &[u8])
    requires { vec_len out.old + length bytes.now ≤ vec_capacity out.old }
    ensures items { out.new.items ≡ out.old.items ++ bytes.now }
    ensures len { vec_len out.new ≡ vec_len out.old + length bytes.now }
    ensures room { vec_capacity out.old ≤ vec_capacity out.new }
{
    match out.extend_from_slice(bytes) {
        Ok(()) => {}
        Err(_) => unreachable!(),
    }
}

fn add_16(out: &mut Vec<u8>, number: u16)
    requires { vec_len out.old + 2 ≤ vec_capacity out.old }
    ensures items { out.new.items ≡ out.old.items ++ u16 number }
    ensures len { vec_len out.new ≡ vec_len out.old + 2 }
    ensures room { vec_capacity out.old ≤ vec_capacity out.new }
{
    let mut bytes = [0; 2];
    BigEndian::write_u16(&mut bytes, number);
    add(out, &bytes);
}

fn add_32(out: &mut Vec<u8>, number: u32)
    requires { vec_len out.old + 4 ≤ vec_capacity out.old }
    ensures items { out.new.items ≡ out.old.items ++ u32 number }
    ensures len { vec_len out.new ≡ vec_len out.old + 4 }
    ensures room { vec_capacity out.old ≤ vec_capacity out.new }
{
    let mut bytes = [0; 4];
    BigEndian::write_u32(&mut bytes, number);
    add(out, &bytes);
}

/// Appends a kind byte with a group and a life.
fn add_sign(out: &mut Vec<u8>, kind: u8, group: u32, life: u32)
    requires { vec_len out.old + 9 ≤ vec_capacity out.old }
    ensures { out.new.items ≡ out.old.items ++ (kind ∷ (u32 group ++ u32 life)) }
{
    add(out, &[kind]);
    add_32(out, group);
    add_32(out, life);
}

#[tactic(auto, unfolding(mls_model::specs::Frames::body))]
fn add_hello(out: &mut Vec<u8>, version: u16, group: u32, life: u32, client: u16, rank: u16)
    requires { vec_len out.old + 15 ≤ vec_capacity out.old }
    ensures { out.new.items ≡ out.old.items ++ body (hello version group life client rank) }
{
    add(out, &[6]);
    add_16(out, version);
    add_32(out, group);
    add_32(out, life);
    add_16(out, client);
    add_16(out, rank);
}

fn add_samples(out: &mut Vec<u8>, samples: &[u16])
    requires { vec_len out.old + 2 * length samples.now ≤ vec_capacity out.old }
    ensures { out.new.items ≡ out.old.items ++ flat_map u16 samples.now }
{
    for x in samples {
        add_16(out, *x);
    }
}

/// Appends the fields of a piece before its samples.
#[tactic(auto, unfolding(mls_model::specs::Frames::piece_head))]
fn add_head(out: &mut Vec<u8>, piece: &Piece)
    requires { vec_len out.old + 24 ≤ vec_capacity out.old }
    ensures items { out.new.items ≡ out.old.items ++ piece_head (owned_piece piece.now) }
    ensures len { vec_len out.new ≡ vec_len out.old + 24 }
    ensures room { vec_capacity out.old ≤ vec_capacity out.new }
{
    add_32(out, piece.life);
    add_32(out, piece.group);
    add_32(out, piece.step);
    add_16(out, piece.client);
    add_16(out, piece.rows);
    add_32(out, piece.first);
    add_32(out, piece.count);
}

/// Appends the body of a piece.
#[tactic(auto, unfolding(mls_model::specs::Frames::body))]
fn add_piece(out: &mut Vec<u8>, piece: &Piece)
    requires { vec_len out.old + (25 + 2 * length piece.now.samples) ≤ vec_capacity out.old }
    ensures { out.new.items ≡ out.old.items ++ body (piece_frame (owned_piece piece.now)) }
{
    add(out, &[1]);
    add_head(out, piece);
    add_samples(out, piece.samples.as_slice());
}

/// Appends the body of a frame.
#[tactic(auto, unfolding(mls_model::specs::Frames::body))]
fn add_body(out: &mut Vec<u8>, frame: &Frame)
    requires { vec_len out.old + length (body (owned_frame frame.now)) ≤ vec_capacity out.old }
    ensures { out.new.items ≡ out.old.items ++ body (owned_frame frame.now) }
{
    match frame {
        Frame::Piece(piece) => add_piece(out, piece),
        Frame::Beat { group, life } => add_sign(out, 2, *group, *life),
        Frame::Bye { group, life } => add_sign(out, 3, *group, *life),
        Frame::Save => add(out, &[4]),
        Frame::Crash => add(out, &[5]),
        Frame::Hello {
            version,
            group,
            life,
            client,
            rank,
        } => add_hello(out, *version, *group, *life, *client, *rank),
        Frame::Welcome { lane } => {
            add(out, &[7]);
            add_32(out, *lane);
        }
        Frame::Refuse { reason, value } => {
            add(out, &[8, *reason]);
            add_32(out, *value);
        }
    }
}

/// The length of a frame's body in bytes.
#[tactic(auto, unfolding(mls_model::specs::Frames::body))]
fn body_length(frame: &Frame) -> u32
    ensures exact { result ≡ length (body (owned_frame frame.now)) }
    ensures bound { result ≤ longest_body }
{
    match frame {
        Frame::Piece(piece) => 25 + 2 * (piece.rows as u32 * piece.count),
        Frame::Beat { .. } | Frame::Bye { .. } => 9,
        Frame::Save | Frame::Crash => 1,
        Frame::Hello { .. } => 15,
        Frame::Welcome { .. } => 5,
        Frame::Refuse { .. } => 6,
    }
}

/// Appends the frame's one spelling. After want of memory the bytes are as before.
#[tactic(auto, unfolding(mls_model::specs::Frames::spelling))]
pub fn put(frame: &Frame, out: &mut Vec<u8>) -> Result<(), NoMemory>
    ensures ok { OnOk result (out.new.items ≡ out.old.items ++ spelling (owned_frame frame.now)) }
    ensures err { OnErr result (out.new.items ≡ out.old.items) }
    // Want of memory comes only where there was no room for the spelling.
    ensures full { OnErr result (vec_capacity out.old < vec_len out.old + length (spelling (owned_frame frame.now))) }
{
    let size = body_length(frame);
    out.reserve(4 + size as usize)?;
    add_32(out, size);
    add_body(out, frame);
    Ok(())
}

impl Piece {
    /// The piece fits its fields and the longest body.
    pub fn valid(&self)
        ensures { IsPiece (owned_piece self.now) }
    {
        self.samples.valid();
        let _life = self.life;
        let _group = self.group;
        let _step = self.step;
        let _client = self.client;
        let _rows = self.rows;
        let _first = self.first;
        let _count = self.count;
    }
}

impl Frame {
    /// The frame's numbers fit their fields, so it has a spelling.
    pub fn valid(&self)
        ensures { IsFrame (owned_frame self.now) }
    {
        match self {
            Frame::Piece(piece) => piece.valid(),
            Frame::Beat { group, life } | Frame::Bye { group, life } => {
                let _ = (*group, *life);
            }
            Frame::Save | Frame::Crash => {}
            Frame::Hello {
                version,
                group,
                life,
                client,
                rank,
            } => {
                let _ = (*version, *group, *life, *client, *rank);
            }
            Frame::Welcome { lane } => {
                let _lane = *lane;
            }
            Frame::Refuse { reason, value } => {
                let _ = (*reason, *value);
            }
        }
    }
}
