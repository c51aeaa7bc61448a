//! A gate before each turn of a worker, at which a test may hold the worker up.

/// Where a worker passes before each of its turns. A pass has no meaning.
pub trait Gate {
    fn pass(&self, worker: u32, turn: u32);
}

/// A gate that lets everyone pass at once.
#[derive(Clone, Copy, Debug)]
pub struct OpenGate;

impl Gate for OpenGate {
    fn pass(&self, _worker: u32, _turn: u32) {}
}
