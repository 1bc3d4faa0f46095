//! Laws of pictures. Each is a function with nothing to do, whose contract is the law: a call of it
//! brings the law to its caller.
ghost use Rattle.dim_picture.specs.Documents.{DocumentLaw};
ghost use Rattle.dim_picture.specs.Places.{ShapesLaw};
ghost use Rattle.dim_picture.specs.Ranges.{RangeLaw};
ghost use Rattle.dim_picture.specs.Told.{ToldLaw};

/// Each entry of a list that executes a program may come after those before it, and is in the
/// ranges of the program.
pub(crate) fn told_law()
    ensures { ToldLaw }
{}

/// What the shapes of entries say, by places. There is one for each entry, at its place, and its mark
/// is what the entry is. It ends at the first place behind it at which such a mark ends, or behind
/// all entries: what waits or yields at the next entry of its thread, a hold at the Free that ends
/// it, each other at the next place.
pub fn shapes_law()
    ensures { ShapesLaw }
{}

/// The text of a picture is well-formed, where the names of the program and of the table are plain:
/// it is one element, each element in it is closed, and each name, value and word is plain, with no
/// quote, ampersand or bracket.
pub fn document_law()
    ensures { DocumentLaw }
{}

/// The shape at each place of a range is drawn. With `shapes_law`: each entry of the range has
/// exactly one mark.
pub fn range_law()
    ensures { RangeLaw }
{}
