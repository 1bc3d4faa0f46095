//! Tests of `dim_picture`: the shapes of traces, and the text of a picture.
#![tactic(auto)]

#[cfg(test)]
mod drawings;
#[cfg(test)]
mod shapes;
