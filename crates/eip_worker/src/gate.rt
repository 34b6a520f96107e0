/// What is told before each call of a processor or a predicate, outside the lock: by which worker, and for which exchange.
pub trait Gate: Sync {
    fn before_process(&self, worker: u32, number: u64);
}

/// A gate that is always open.
pub struct NoGate;

impl Gate for NoGate {
    fn before_process(&self, _worker: u32, _number: u64) {}
}
