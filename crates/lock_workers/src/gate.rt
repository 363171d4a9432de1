// What stands before and behind each job, for whoever wants to hold a worker there.

/// Is told of each job. It is never asked under the lock.
pub trait Gate {
    /// This worker comes to its job at this place, from 0.
    fn enter(&self, worker: u32, place: usize);

    /// It has done that job.
    fn leave(&self, worker: u32, place: usize);
}

/// Holds nobody.
#[derive(Clone, Copy, Drop)]
pub struct Open;

impl Gate for Open {
    fn enter(&self, _worker: u32, _place: usize) {}

    fn leave(&self, _worker: u32, _place: usize) {}
}
