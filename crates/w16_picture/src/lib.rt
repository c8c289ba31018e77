//! Pictures of the heap: what a walk tells as rectangles on a strip, bands between two strips, and both as SVG and as text.
#![tactic(auto)]

mod bands;
mod escape;
mod facts;
mod layout;
mod picture;
mod strips;
mod style;
mod svg;
mod text;

pub use bands::{Band, alone, bands_between};
pub use escape::{push_escaped, push_shown};
pub use facts::{Part, Source};
pub use layout::{Rect, covers, rectangles};
pub use picture::Picture;
pub use style::Style;
pub use svg::Caption;
