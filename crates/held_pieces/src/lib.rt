//! What a cyclone holds of the pieces that the records tell of: the laws of the two together.
#![tactic(auto)]

mod laws;

pub use laws::{
    alike_is_held, begun_is_held, device_may_change, fresh_is_held, held_fit, moved_is_held,
    opened_is_held, passed_is_held, placed_is_held, room_may_grow, taken_is_held,
};
