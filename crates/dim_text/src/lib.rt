//! What the formats share: the parts of a text, numbers, names, the words for a state and the sides
//! of a frame.
#![tactic(auto)]

mod laws;
mod names;
mod numbers;
mod parts;
mod states;
mod stop;
mod words;

pub use laws::{byte_laws, cutting_laws};
pub use names::{is_name, name};
pub use numbers::{is_number, number, number_from, number64, signed};
pub use parts::{Parts, frame_sides};
pub use states::{state_in, state_word};
pub use stop::Stop;
pub use words::{is_word, one_word, two_words, unless};
