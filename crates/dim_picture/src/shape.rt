//! Shapes: a mark with its end and its row.
use crate::mark::Mark;

/// A mark in its picture. A list of shapes has one for each entry, so its place is that of its
/// entry.
#[derive(Clone, Copy, Debug, PartialEq, Eq)]
pub struct Shape {
    pub mark: Mark,
    /// The place of the entry that ends it, or the number of entries where it goes on.
    pub end: u32,
    /// The row of its thread's lane in which it stands, from 0.
    pub row: u32,
}
