//! The numbers under which the messages that turns take were sent.

ghost use Rattle.std.specs.Prelude.{◌≡◌, ℕ, List, OnOk, None, Some, if◌then◌else◌, option_and_then, option_map};
ghost use Rattle.std.specs.Option.{option_or};
ghost use Rattle.std.specs.Str.{bytes_eq};
ghost use Rattle.vp_merge.specs.Numbers.{entry_of, number_at, place_of, HaveSame};

use indexmap::IndexMap;
use std::alloc::Global;
use vp_base::NoMemory;

/// The frames of the turns, each with the lowest number under which a message of these bytes was sent; none before one was. A message
/// that no turn takes leaves nothing here.
#[derive(Drop)]
pub struct FrameNumbers {
    numbers: IndexMap<Vec<u8>, Option<u32>>,
}

impl FrameNumbers {
    /// Makes it without frames. Takes no memory.
    pub fn new(alloc: Global) -> FrameNumbers
        ensures { (bytes : List ℕ) → entry_of result bytes ≡ None }
    {
        FrameNumbers {
            numbers: IndexMap::new(alloc),
        }
    }

    /// Adds the frame of a turn, without a number.
    pub fn add(&mut self, alloc: Global, frame: &[u8]) -> Result<(), NoMemory>
        ensures { OnOk result ((bytes : List ℕ) →
            entry_of self.new bytes ≡ (if bytes_eq frame.now bytes then Some None else entry_of self.old bytes)) }
    {
        self.numbers.insert(frame.to_vec(alloc)?, None)?;
        Ok(())
    }

    /// The place of a frame, which it keeps; none where it is not there.
    pub fn place(&self, frame: &[u8]) -> Option<usize>
        ensures { result ≡ place_of self.now frame.now }
    {
        self.numbers.get_index_of(frame)
    }

    /// The lowest number under which a message of the bytes at this place was sent.
    pub fn number(&self, place: Option<usize>) -> Option<u32>
        ensures { result ≡ number_at self.now place }
    {
        let (_, number) = self.numbers.get_index(place?)?;
        *number
    }

    /// Notes that a message of these bytes was sent under the number, if a turn takes such a message. The first number stays.
    pub fn note(&mut self, frame: &[u8], number: u32)
        ensures same { HaveSame self.old self.new }
        ensures noted { (bytes : List ℕ) → entry_of self.new bytes
            ≡ (if bytes_eq frame.now bytes
            then option_map (λ n. option_or n (Some number)) (entry_of self.old bytes)
            else entry_of self.old bytes) }
    {
        if let Some(first) = self.numbers.get_mut(frame) {
            if first.is_none() {
                *first = Some(number);
            }
        }
    }
}
