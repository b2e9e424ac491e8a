//! A register that goes on where an image was made.
#![tactic(auto)]

mod from_image;

pub use from_image::restore;
pub use images::ImageFault;
