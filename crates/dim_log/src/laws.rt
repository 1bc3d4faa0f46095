//! What texts of logs say, as laws. Each is a function with nothing to do.
ghost use Rattle.std.specs.Prelude.{◌≡◌, ℕ, List, Ok};
ghost use Rattle.std.specs.Fmt.{decimal};
ghost use Rattle.dim_text.specs.Cuts.{words_of, frame_word};
ghost use Rattle.dim_log.specs.Value.{SaidFrame};
ghost use Rattle.dim_log.specs.Saying.{frame_of, frames_of};
ghost use Rattle.dim_log.specs.Places.{FoundLaw, OnlyLaw};

/// A word that is read as a frame is its function, a colon and its line. A stack has one text.
pub fn frame_law()
    ensures frame { (word : List ℕ) (f : SaidFrame) → frame_of word ≡ Ok f
        → word ≡ frame_word f.function (decimal f.line) }
    ensures stack { (a b : List ℕ) (stack : List SaidFrame) → frames_of (words_of a) ≡ Ok stack
        → frames_of (words_of b) ≡ Ok stack → a ≡ b }
{}

/// Which fault a text has, by the places of its lines: where all lines before one are taken, and
/// that one is not, its kind there is the fault that is read. No other fault is read.
pub fn first_fault_law()
    ensures found { FoundLaw }
    ensures only { OnlyLaw }
{}
