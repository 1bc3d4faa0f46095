//! A text that is being written.
ghost use Rattle.std.specs.Prelude.{◌≡◌, ◌+◌, ◌<◌, ◌≤◌, ◌∷◌, ◌++◌, [], IfOk, OnOk, if◌then◌else◌, length, take};
ghost use Rattle.std.specs.String.{string_bytes};
ghost use Rattle.std.specs.Fmt.{decimal};

use std::alloc::AllocError;
use std::marker::Model;

/// How many bytes are gathered before they are put behind the others.
const ROOM: usize = 1024;

/// How many bytes are kept for what stands beside a word of any length: a word of at most eight
/// bytes, two spaces and two digits.
const REST: usize = 12;

/// A text that is being written, which contracts see as its bytes. Short words are gathered in room
/// of its own, so that it is asked whether there is room once for several of them.
#[derive(Drop)]
pub struct Draft {
    done: Vec<u8>,
    used: u32,
    room: [u8; 1024],
}

impl Model for Draft {
    ghost use Rattle.std.specs.Prelude.{List, ℕ, ◌++◌, ◌≤◌, take};

    ghost Value = { List ℕ };

    ghost view = { λ d. d.done.items ++ take d.used d.room };

    ghost invariant = { λ d. d.used ≤ 1024 };
}

impl Draft {
    /// The draft that begins with a text.
    pub fn of(text: String) -> Draft
        ensures { result ≡ string_bytes text }
    {
        Draft {
            done: text.into_bytes(),
            used: 0,
            room: [0; 1024],
        }
    }

    /// Makes room for so many bytes more, so that what is there isn't moved while they are put.
    pub fn reserve(&mut self, bytes: usize) -> Result<(), AllocError>
        ensures { self.new ≡ self.old }
    {
        self.done.reserve(bytes)
    }

    /// Appends a byte.
    #[inline(always)]
    pub fn put_byte(&mut self, byte: u8) -> Result<(), AllocError>
        ensures { OnOk result (self.new ≡ self.old ++ byte ∷ []) }
    {
        let used = self.used as usize;
        if used < ROOM {
            self.used = fill_byte(&mut self.room, used, byte) as u32;
            return Ok(());
        }
        self.put_behind(&[byte])
    }

    /// Appends a text.
    #[inline(always)]
    pub fn put(&mut self, text: &str) -> Result<(), AllocError>
        ensures { OnOk result (self.new ≡ self.old ++ text.now) }
    {
        let used = self.used as usize;
        if text.len() <= ROOM - used {
            self.used = fill_text(&mut self.room, used, text) as u32;
            return Ok(());
        }
        self.put_behind(text.as_bytes())
    }

    /// Appends a word, a number and a word, a space between two of them, where all three are short.
    #[inline(always)]
    pub fn puts_act(&mut self, act: &str, n: u32, word: &str) -> bool
        ensures { self.new ≡ (if result
            then self.old ++ (act.now ++ 32 ∷ (decimal n ++ 32 ∷ word.now)) else self.old) }
    {
        let used = self.used as usize;
        let fits = n < 100 && act.len() <= 8 && used + REST <= ROOM;
        if !fits || word.len() > ROOM - REST - used {
            return false;
        }
        let at = fill_text(&mut self.room, used, act);
        let at = fill_byte(&mut self.room, at, b' ');
        let at = fill_digits(&mut self.room, at, n);
        let at = fill_byte(&mut self.room, at, b' ');
        self.used = fill_text(&mut self.room, at, word) as u32;
        true
    }

    /// Appends a space, a word, a colon and a number, where both are short.
    #[inline(always)]
    pub fn puts_frame(&mut self, word: &str, n: u32) -> bool
        ensures { self.new ≡ (if result
            then self.old ++ 32 ∷ (word.now ++ 58 ∷ decimal n) else self.old) }
    {
        let used = self.used as usize;
        let fits = n < 100 && used + REST <= ROOM;
        if !fits || word.len() > ROOM - REST - used {
            return false;
        }
        let at = fill_byte(&mut self.room, used, b' ');
        let at = fill_text(&mut self.room, at, word);
        let at = fill_byte(&mut self.room, at, b':');
        self.used = fill_digits(&mut self.room, at, n) as u32;
        true
    }

    /// Puts what is gathered behind the others, and then these bytes.
    #[cold]
    #[inline(never)]
    fn put_behind(&mut self, bytes: &[u8]) -> Result<(), AllocError>
        ensures { OnOk result (self.new ≡ self.old ++ bytes.now) }
    {
        self.done
            .extend_from_slice(&self.room[..self.used as usize])?;
        self.used = 0;
        self.done.extend_from_slice(bytes)
    }

    /// The bytes of the text.
    pub fn into_bytes(mut self) -> Result<Vec<u8>, AllocError>
        ensures { IfOk result (λ bytes. bytes.items ≡ self) }
    {
        self.done
            .extend_from_slice(&self.room[..self.used as usize])?;
        Ok(self.done)
    }
}

/// Writes a byte at a place of the room. It answers the place behind it.
#[inline(always)]
fn fill_byte(room: &mut [u8; 1024], at: usize, byte: u8) -> usize
    requires { at < 1024 }
    ensures bytes { take result room.new ≡ take at room.old ++ byte ∷ [] }
    ensures place { result ≡ at + 1 }
{
    room[at] = byte;
    at + 1
}

/// Writes the digits of a number below 100 at a place of the room. It answers the place behind them.
#[inline(always)]
fn fill_digits(room: &mut [u8; 1024], at: usize, n: u32) -> usize
    requires few { n < 100 }
    requires room { at + 2 ≤ 1024 }
    ensures bytes { take result room.new ≡ take at room.old ++ decimal n }
    ensures place { result ≤ at + 2 }
{
    if n < 10 {
        return fill_byte(room, at, b'0' + n as u8);
    }
    let at = fill_byte(room, at, b'0' + (n / 10) as u8);
    fill_byte(room, at, b'0' + (n % 10) as u8)
}

/// Writes a text at a place of the room. It answers the place behind it.
#[inline(always)]
fn fill_text(room: &mut [u8; 1024], at: usize, text: &str) -> usize
    requires { at + length text.now ≤ 1024 }
    ensures bytes { take result room.new ≡ take at room.old ++ text.now }
    ensures place { result ≡ at + length text.now }
{
    let bytes = text.as_bytes();
    let end = at + bytes.len();
    room[at..end].copy_from_slice(bytes);
    end
}
