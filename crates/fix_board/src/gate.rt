/// Called by a worker between a take and its post, or between drawing a number and keeping its piece.
pub trait Gate {
    fn pass(&self, worker: u32, turn: u32);
}

/// Lets each worker pass.
#[derive(Drop)]
pub struct OpenGate;

impl Gate for OpenGate {
    fn pass(&self, _worker: u32, _turn: u32) {}
}
