//! What an image of a device opens to: definitions and laws over bytes, and a slow reader.
#![tactic(auto)]

mod device;
mod later;
mod laws;
mod newest;
mod reader;
mod rows;
mod slices;
mod standing;

pub use device::read_area;
pub use laws::{
    areas_by_first_block, documents_may_be_given, faults_open_nothing, found_pieces_stand,
    guarded_images_open, guards_pass_on, heads_decide, images_open_alike, it_lasts_on,
    marks_are_taken_up, one_copy_decides, openings_may_begin, pieces_are_kept_by_name,
    places_suffice, rows_are_kept, windows_are_apart,
};
pub use newest::{Newest, bound_of};
pub use reader::{OpenFault, Opened, open_image};
pub use rows::rows_told;
pub use slices::{blocks_of_length, length_told};
pub use standing::{is_inside, judged};
