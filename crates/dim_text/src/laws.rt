//! Laws of spelling, for those who write a format. Each is a function with nothing to do.
ghost use Rattle.std.specs.Prelude.{◌≡◌, ◌<◌, ◌^◌, ◌++◌, ◌∷◌, List, ℕ, ℤ, false, Some, FitsSigned};
ghost use Rattle.std.specs.Int.{w64, IsInRange};
ghost use Rattle.std.specs.Fmt.{decimal, signed_decimal};
ghost use Rattle.std.specs.List.{AllByRecursion};
ghost use Rattle.dim_text.specs.Cuts.{lines_of, words_of, sides_of, line_of, ended, frame_word, HasNo};
ghost use Rattle.dim_text.specs.Naming.{IsName, is_name_byte};

/// A text that begins with a line has it as its first line. The words of a line are those it was
/// made of, and make it. The sides of a word are those it was made of, and make it.
pub fn cutting_laws()
    ensures line { (line rest : List ℕ) → HasNo 10 line
        → lines_of (ended line ++ rest) ≡ line ∷ lines_of rest }
    ensures words { (word : List ℕ) (words : List (List ℕ))
        → AllByRecursion (HasNo 32) (word ∷ words)
        → words_of (line_of (word ∷ words)) ≡ word ∷ words }
    ensures line_again { (line : List ℕ) → line_of (words_of line) ≡ line }
    ensures sides { (name offset : List ℕ) → HasNo 58 name → HasNo 58 offset
        → sides_of (frame_word name offset) ≡ Some (name, offset) }
    ensures sides_again { (word name offset : List ℕ) → sides_of word ≡ Some (name, offset)
        → word ≡ frame_word name offset }
{}

/// Names and numbers have no byte but letters, digits, `_`, and a `-` before a number below 0. So
/// they have no space, line feed or colon.
pub fn byte_laws()
    ensures names { (c : ℕ) (word : List ℕ) → is_name_byte c ≡ false → IsName word → HasNo c word }
    ensures numbers { (c n : ℕ) → ¬ (IsInRange 48 57 c) → n < 2 ^ 64 → HasNo c (decimal n) }
{}
