//! The turns that a site has to take.

ghost use Rattle.std.specs.Prelude.{◌≡◌, [], ◌∷◌, OnOk};
ghost use Rattle.vp_fitting.specs.Asked.{dues_of};
ghost use Rattle.vp_merge.specs.Dues.{dues_left, NextOf};

use vp_base::{NoMemory, SiteId};
use vp_recording::{Recording, Turn};

/// A turn that a site has to take: in which life, as which of its turns, counted from 1, and whether it may have only the first of its
/// datagrams.
#[derive(Clone, Copy)]
pub struct Due<'a> {
    pub life: u32,
    pub number: u32,
    pub turn: &'a Turn,
    pub short: bool,
}

/// The turns of a site from some place in the recordings on: those that are left of one recording, and the recordings after it.
#[derive(Drop)]
pub struct Dues<'a> {
    site: SiteId,
    /// The number of the next turn.
    number: u32,
    /// The life of the recording at hand, and whether its end is recorded.
    life: u32,
    ended: bool,
    turns: &'a [Turn],
    recordings: &'a [Recording],
}

impl<'a> Dues<'a> {
    /// All turns of the site.
    pub fn new(site: SiteId, recordings: &'a [Recording]) -> Dues<'a>
        ensures { dues_left result ≡ dues_of site recordings.now }
    {
        Dues {
            site,
            number: 1,
            life: 0,
            ended: false,
            turns: &[],
            recordings,
        }
    }

    /// Goes on to the next recording of the site that has turns, if none are left of the one at hand.
    fn open(&mut self)
        ensures same { dues_left self.new ≡ dues_left self.old }
        ensures open { self.new.turns.now ≡ [] → self.new.recordings.now ≡ [] }
    {
        'recordings: while self.turns.is_empty() {
            let Some((recording, rest)) = self.recordings.split_first() else {
                return;
            };
            self.recordings = rest;
            if recording.site == self.site {
                self.life = recording.life;
                self.ended = recording.ended;
                self.turns = recording.turns.as_slice();
            }
        }
    }

    /// Takes the next turn. More turns than are counted don't fit into memory.
    pub fn next(&mut self) -> Result<Option<Due<'a>>, NoMemory>
        ensures { NextOf result (dues_left self.old) (dues_left self.new) }
    {
        self.open();
        let Some((turn, turns)) = self.turns.split_first() else {
            return Ok(None);
        };
        let due = Due {
            life: self.life,
            number: self.number,
            turn,
            short: !self.ended && turns.is_empty(),
        };
        self.number = self.number.checked_add(1).ok_or(NoMemory)?;
        self.turns = turns;
        Ok(Some(due))
    }
}
