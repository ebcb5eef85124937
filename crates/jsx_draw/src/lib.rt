//! The spans of a report at the lines of their files: which lines they mark, and what is drawn of them
//! under a line, in a grid of characters with styles.
#![tactic(auto)]

mod annotation;
mod draw;
mod files;
mod layout;
mod marks;
mod numbers;
mod order;
mod places;
mod spots;
mod styled_buffer;
mod wides;

pub use annotation::{Annotation, AnnotationType, Line, MultilineAnnotation};
pub use draw::{Columns, across, draw_open, under_line};
pub use files::{ShownFile, files_of, put_first};
pub use layout::{Placed, lay_out};
pub use marks::{At, bars_past, bars_to, marks_in};
pub use numbers::sum;
pub use places::{ends_of, place_of};
pub use spots::{Point, Spot, by_lines, singles, spots_of};
pub use styled_buffer::{StyledBuffer, StyledString};
pub use wides::{Wide, depth_of, wides_of};

#[cfg(test)]
mod tests;
