//! Names.
ghost use Rattle.std.specs.Prelude.{◌≡◌};
ghost use Rattle.std.specs.List.{list_all};
ghost use Rattle.std.specs.Option.{option_map};
ghost use Rattle.dim_text.specs.Naming.{is_name, is_name_byte, name_of};

fn is_name_byte(byte: u8) -> bool
    ensures { result ≡ is_name_byte byte }
{
    byte.is_ascii_alphanumeric() || byte == b'_'
}

fn are_name_bytes(word: &[u8]) -> bool
    ensures { result ≡ list_all is_name_byte word.now }
{
    word.iter().all(|byte| is_name_byte(*byte))
}

/// Whether a word is a name: 1 to 24 letters, digits and `_`, of which the first is no digit.
pub fn is_name(word: &[u8]) -> bool
    ensures { result ≡ is_name word.now }
{
    let fits = 1 <= word.len() && word.len() <= 24;
    fits && !word[0].is_ascii_digit() && are_name_bytes(word)
}

/// The name that a word is.
#[tactic(auto, using(crate::proofs::NameLemmas::IsUtf8_name), unfolding(crate::specs::Naming::name_of))]
pub fn name(word: &[u8]) -> Option<&str>
    ensures { option_map (λ s. s.now) result ≡ name_of word.now }
{
    if !is_name(word) {
        return None;
    }
    str::from_utf8(word).ok()
}
