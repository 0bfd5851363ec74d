/// Is told of each job before it is done, in the thread that does it.
pub trait Gate {
    /// Is told that the job at this place of the queue is done next. It changes no answer.
    fn enter(&self, job: u32);
}

/// A gate that does nothing.
#[derive(Clone, Copy, Debug)]
pub struct OpenGate;

impl Gate for OpenGate {
    fn enter(&self, _job: u32) {}
}
