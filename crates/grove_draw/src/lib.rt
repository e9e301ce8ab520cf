//! Plans as pictures: what is drawn of a plan, and the drawings themselves, as SVG and as text.
#![tactic(auto)]

pub use bar::Bar;
pub use drawing::{Drawing, Form};
pub use picture::{Picture, legal_picture, picture_of};

mod bar;
mod columns;
mod drawing;
mod escaping;
mod picture;
mod svg;
mod text;
mod words;
