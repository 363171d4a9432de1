//! What a reader is given, line after line, is in order what the writer of its put took.
#![tactic(auto)]

mod laws;

pub use laws::{
    all_given, damage_is_given, end_is_all, first_given, follow_is_asked, got_is_put, hit_is_asked,
    hit_opens, length_is_told, opens_first, put_is_measured, reader_is_opened,
};
