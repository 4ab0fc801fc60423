//! Comparing the frames of a step with what is recorded of it.

ghost use Rattle.std.specs.Prelude.{◌≡◌, ◌∷◌, [], ℕ, List};
ghost use Rattle.vp_merge.specs.Telling.{agrees};

use vp_outside::Datagram;

/// The datagrams that are recorded of a turn, compared with the frames of its step, one after the other.
#[derive(Drop)]
pub struct Comparison<'a> {
    /// The datagrams that no frame was compared with yet.
    pub outs: &'a [Datagram],
    /// Whether they may be only the first ones.
    pub short: bool,
    /// Whether all frames so far were the same.
    pub alike: bool,
}

impl<'a> Comparison<'a> {
    /// Compares the next frame.
    pub fn compare(&mut self, frame: &[u8])
        ensures { (made : List (List ℕ)) → agrees self.old (frame.now ∷ made) ≡ agrees self.new made }
    {
        match self.outs.split_first() {
            Some((out, outs)) => {
                self.alike = self.alike && out.bytes.as_slice() == frame;
                self.outs = outs;
            }
            None => self.alike = self.alike && self.short,
        }
    }

    /// Whether all frames were the same, where no more come.
    pub fn ends_alike(&self) -> bool
        ensures { result ≡ agrees self.now [] }
    {
        self.alike && self.outs.is_empty()
    }
}
