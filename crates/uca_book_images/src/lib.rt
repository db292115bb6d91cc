//! Books and compact keys under the maps of a certificate: the image of a book, and which compact keys stay.
//!
//! A new edition of a table numbers its weights anew, and a certificate says how. `image_of` puts the starts of a book
//! through the map of level 1. `moved_keys_stay` says which stored keys have the compact key that they had, once they
//! and the book went through the maps.
#![tactic(auto)]

mod image;
mod laws;

pub use image::image_of;
pub use laws::{
    images_are_books, kept_keys_stay, moved_keys_stay, rising_maps_keep_places,
    starts_become_their_images, worked_images,
};
pub use uca_books::Book;
pub use uca_certificates::Certificate;
