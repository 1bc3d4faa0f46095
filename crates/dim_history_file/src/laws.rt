//! What histories and their texts are to one another, as laws. Each is a function with nothing to
//! do.
ghost use Rattle.std.specs.Prelude.{◌≡◌, ℕ, List, Ok};
ghost use Rattle.dim_history_file.specs.Value.{NamedSig, migrated};
ghost use Rattle.dim_history_file.specs.Judging.{history_of};
ghost use Rattle.dim_history_file.specs.Lengths.{LengthLaw};
ghost use Rattle.dim_history_file.specs.Places.{FoundLaw, OnlyLaw};
ghost use Rattle.dim_history_file.specs.Spelling.{history_text, text_in};
ghost use Rattle.dim_history_file.specs.Grammar.{HasHead, IsHistory, IsTextOf};
ghost use Rattle.dim_history_file.specs.declared.version.Version.{Version};
ghost use Rattle.dim_history_file.specs.declared.version.Version.TheVariants.{One};

/// A text that is read as a history is a text of that history, and the only one of its version.
pub fn spelling_law()
    ensures text { (bytes : List ℕ) (sigs : List NamedSig) → history_of bytes ≡ Ok sigs
        → IsTextOf bytes sigs }
    ensures history { (bytes : List ℕ) (sigs : List NamedSig) → history_of bytes ≡ Ok sigs
        → IsHistory sigs }
    ensures only { (bytes : List ℕ) (sigs : List NamedSig) (version : Version) →
        history_of bytes ≡ Ok sigs → HasHead version bytes → bytes ≡ text_in version sigs }
{}

/// The text of a history is read as that history; and that of version 1 as the one with its
/// signatures, all on with 0 yields.
pub fn reading_law()
    ensures again { (sigs : List NamedSig) → IsHistory sigs
        → history_of (history_text sigs) ≡ Ok sigs }
    ensures migrated { (sigs : List NamedSig) → IsHistory sigs
        → history_of (text_in One sigs) ≡ Ok (migrated sigs) }
{}

/// How long texts are: what is written of a history that was read has at most five bytes more a
/// signature, and what is written of one that has grown has at most ten more a signature, 31,775 for
/// each new one, and four.
pub fn length_law()
    ensures { LengthLaw }
{}

/// Which fault a text has, by the places of its lines: where all lines before one are taken, each
/// in the state that the one before it led to, and that one is not, its kind there is the fault
/// that is read. What stands behind the last line feed is judged as the end. No other fault is
/// read.
pub fn first_fault_law()
    ensures found { FoundLaw }
    ensures only { OnlyLaw }
{}
