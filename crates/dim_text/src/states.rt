//! The words for the two states of a signature, switched on and switched off.
ghost use Rattle.std.specs.Prelude.{◌≡◌};
ghost use Rattle.dim_text.specs.States.{state_in, state_word};

/// The word for a state: `on` or `off`.
pub fn state_word(on: bool) -> &'static str
    ensures { result.now ≡ state_word on }
{
    if on { "on" } else { "off" }
}

/// The state that a word names, if it is one of these two words.
pub fn state_in(word: &[u8]) -> Option<bool>
    ensures { result ≡ state_in word.now }
{
    if word == b"on".as_slice() {
        Some(true)
    } else if word == b"off".as_slice() {
        Some(false)
    } else {
        None
    }
}
