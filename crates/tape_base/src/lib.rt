//! What the other crates of the cache name: keys, pieces, digests, the geometry and its places.
#![tactic(auto)]

mod actors;
mod blocks;
mod digests;
mod geometries;
mod keys;
mod pieces;
mod places;
mod probes;
mod sizes;

pub use actors::Actor;
pub use blocks::blocks_of;
pub use digests::{Digest, digests_tell, sides_are_bytes};
pub use geometries::{BadGeometry, Geometry, alternates_are_last};
pub use keys::Key;
pub use pieces::PieceId;
pub use places::{
    block, device_blocks, directory_blocks, floor_of, lap, lap_end, next_cursor, phase, slot,
};
pub use probes::Steps;
pub use sizes::{BLOCK, HEADER, LIMIT, MAX_WRITERS};
