//! The gate of workers: points at which a test may hold a worker of a search or of a session.
#![tactic(auto)]

/// Points at which a test may hold a worker. Workers on several threads share one gate.
pub trait Gate: Sync {
    /// The worker is about to visit a node of a search tree.
    fn before_node(&self, worker: u32);

    /// The worker is about to amend one line of a message.
    fn before_line(&self, worker: u32);
}

/// The gate of the program: it holds nobody.
#[derive(Clone, Copy, Debug)]
pub struct RealGate;

impl Gate for RealGate {
    fn before_node(&self, _worker: u32) {}

    fn before_line(&self, _worker: u32) {}
}
