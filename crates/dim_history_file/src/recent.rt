//! Where names were found last.
ghost use Rattle.std.specs.Prelude.{◌≡◌};
ghost use Rattle.dim_stack.specs.Names.{name_number};

use dim_stack::Names;

/// For names that come again soon, the place where each stood when it was last found.
///
/// Names may share an entry, so a place is a guess: who asks looks whether the name stands there.
#[derive(Drop)]
pub struct Recent {
    places: [u32; 256],
}

impl Recent {
    /// Nothing was found yet.
    pub fn new() -> Recent {
        Recent { places: [0; 256] }
    }

    /// Where a name may stand.
    pub fn guess(&self, name: &[u8]) -> u32 {
        self.places[usize::from(slot_of(name))]
    }

    /// Notes where a name stands.
    pub fn note(&mut self, name: &[u8], place: u32) {
        self.places[usize::from(slot_of(name))] = place;
    }

    /// The number of a name in a table, and None where it is not there. It is noted where it was
    /// not guessed.
    pub fn find(&mut self, names: &Names, name: &[u8]) -> Option<u32>
        ensures { result ≡ name_number names.now name.now }
    {
        let guess = self.guess(name);
        let number = names.find_with_guess(name, guess)?;
        if number != guess {
            self.note(name, number);
        }
        Some(number)
    }
}

// The entry of a name, for which each of its bytes counts.
fn slot_of(name: &[u8]) -> u8 {
    let mut entry = 0u8;
    for byte in name {
        entry = entry.wrapping_mul(37).wrapping_add(*byte);
    }
    entry
}
