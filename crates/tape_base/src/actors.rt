// Who asks for a step.

/// A number for the actor of a step, given in the order in which actors appear.
#[derive(Clone, Copy, Debug, PartialEq, Eq, Hash)]
pub struct Actor(pub u32);
