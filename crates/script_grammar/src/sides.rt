// The fields that a line takes, and those that it has.
use alternate_vector::Fields;

/// Which fields a line takes.
#[derive(Clone, Copy, Debug, PartialEq, Eq)]
pub enum FieldKinds {
    Request,
    Both,
}

/// The fields of a line.
#[derive(Debug, Drop)]
pub struct Sides {
    pub request: Fields,
    pub response: Fields,
}
