//! The server's answer to the first frame of a connection.

ghost use Rattle.std.specs.Prelude.{◌≡◌, ◌<◌};
ghost use Rattle.std.specs.List.{find};
ghost use Rattle.mls_model.specs.Blocks.{overlaps};
ghost use Rattle.mls_frame.specs.Views.{frame_of};
ghost use Rattle.mls_wire.specs.Sessions.{Line, hello_lines, decided, greeting};
ghost use Rattle.mls_wire.specs.declared.greeting.Greeting.TheVariants.{Welcome, Refuse};

use mls_base::shape::Shape;
use mls_frame::FrameView;

/// The version of the handshake.
const VERSION: u16 = 1;

/// What is answered to a first frame.
#[derive(Clone, Copy, Debug, PartialEq, Eq)]
pub enum Greeting {
    /// The connection is a group's, from a client to a rank.
    Welcome {
        group: u32,
        life: u32,
        client: u32,
        rank: u32,
    },
    /// The connection is refused, for a reason from 1 to 6.
    Refuse {
        reason: u8,
        value: u32,
    },
}

/// Whether a client's part meets a rank's block.
fn do_overlap(shape: &Shape, rank: u32, client: u32) -> bool
    requires rank_in { rank < shape.now.ranks }
    requires client_in { client < shape.now.clients }
    ensures { result ≡ overlaps shape.now rank client }
{
    let cells = shape.overlap(rank, client);
    cells.first < cells.end
}

/// The answer to a Hello: the first line of the table that holds.
fn greet_hello(
    shape: &Shape,
    version: u16,
    group: u32,
    life: u32,
    client: u16,
    rank: u16,
) -> Greeting
    ensures { let lines = hello_lines shape.now version group client rank in
        result ≡ decided (find (λ (l : Line). l.holds) lines) (Welcome group life client rank) }
{
    let (client, rank) = (client as u32, rank as u32);
    if version != VERSION {
        return refuse(1, version as u32);
    }
    if group >= shape.groups() {
        return refuse(2, group);
    }
    if client >= shape.clients() {
        return refuse(3, client);
    }
    if rank >= shape.ranks() {
        return refuse(4, rank);
    }
    if !do_overlap(shape, rank, client) {
        return refuse(5, client);
    }
    Greeting::Welcome {
        group,
        life,
        client,
        rank,
    }
}

fn refuse(reason: u8, value: u32) -> Greeting
    ensures { result ≡ Refuse reason value }
{
    Greeting::Refuse { reason, value }
}

/// The answer to the first frame of a connection, by the first line of the handshake's table that holds.
#[tactic(auto, unfolding(crate::specs::Sessions::greeting))]
pub fn greet(shape: &Shape, view: &FrameView<'_>) -> Greeting
    ensures exact { result ≡ greeting shape.now (frame_of view.now) }
{
    match view {
        FrameView::Hello {
            version,
            group,
            life,
            client,
            rank,
        } => greet_hello(shape, *version, *group, *life, *client, *rank),
        _ => refuse(6, 0),
    }
}
