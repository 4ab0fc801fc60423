//! The kinds of words.

ghost use Rattle.std.specs.Prelude.{◌≡◌};
ghost use Rattle.vp_text.specs.Classes.{has, most};

/// A kind of words: which bytes a word may have, and how many of them at most. Every word has at least one byte.
#[derive(Clone, Copy, Debug, PartialEq, Eq)]
pub enum Class {
    /// 1 to 16 bytes, each a lower-case letter of ASCII, a digit or an underscore.
    Name,
    /// 1 to 1,024 bytes, each printable ASCII and not a space.
    Value,
}

impl Class {
    /// Whether a word of this kind may contain the byte; the place in the word makes no difference.
    pub fn has(self, byte: u8) -> bool
        ensures { result ≡ has self byte }
    {
        match self {
            Class::Name => byte.is_ascii_lowercase() || byte.is_ascii_digit() || byte == b'_',
            Class::Value => byte.is_ascii_graphic(),
        }
    }

    /// The length in bytes of the longest words of this kind: 16 for names, 1,024 for values.
    pub fn most(self) -> usize
        ensures { result ≡ most self }
    {
        match self {
            Class::Name => 16,
            Class::Value => 1024,
        }
    }
}
