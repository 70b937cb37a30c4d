// Images: stores over bytes, for reading and for writing.
#![tactic(auto)]

pub mod images;
mod layout;
pub mod read_images;

pub use images::Image;
pub use layout::{LONGEST, check_image};
pub use read_images::ReadImage;
