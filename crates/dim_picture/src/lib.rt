//! Pictures of traces: what each entry is in one, and its text, as SVG.
#![tactic(auto)]

mod bar;
mod drawing;
mod ending;
mod figure;
mod frame;
mod lanes;
mod laws;
mod line;
mod mark;
mod marking;
mod page;
mod picturing;
mod references;
mod rows;
mod shape;
mod shaping;
mod style;
mod svg;

pub use laws::{document_law, range_law, shapes_law};
pub use mark::Mark;
pub use picturing::picture_text;
pub use shape::Shape;
pub use shaping::{Drawing, drawn};
