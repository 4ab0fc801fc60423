//! What a site has left.

ghost use Rattle.std.specs.Prelude.{◌≡◌, ◌&&◌, ℕ, IfOk, OnOk};
ghost use Rattle.vp_fitting.specs.Merged.{first_track, is_own};
ghost use Rattle.vp_merge.specs.Dues.{dues_left};
ghost use Rattle.vp_merge.specs.Tracks.{IsTrack, TakesNext, can_go, is_ready_by, own_event, track_of};

use crate::asking::asked;
use crate::dues::{Due, Dues};
use crate::numbers::FrameNumbers;
use crate::sent_frame::SentFrame;
use std::alloc::Global;
use vp_base::{CopyOf, Event, Input, NoMemory, SiteId};
use vp_recording::Recording;
use vp_runs::Arrival;

/// The next turn of a site, with the place of its frame in the numbers, and what that asks.
#[derive(Drop)]
pub struct NextTurn<'a> {
    pub due: Due<'a>,
    pub place: Option<usize>,
    pub asked: Arrival,
}

/// What a site has left: the life that it is in, and the turns that it has to take.
#[derive(Drop)]
pub struct Track<'a> {
    pub site: SiteId,
    pub life: u32,
    /// The first of the turns; `None` where no turn is left.
    pub next: Option<NextTurn<'a>>,
    /// The others.
    pub rest: Dues<'a>,
}

/// Takes the next of the turns, finds its frame in the numbers, and says what it asks.
fn take_next<'a>(
    alloc: Global,
    site: SiteId,
    rest: &mut Dues<'a>,
    numbers: &FrameNumbers,
) -> Result<Option<NextTurn<'a>>, NoMemory>
    ensures { TakesNext numbers.now site result (dues_left rest.old) (dues_left rest.new) }
{
    let Some(due) = rest.next()? else {
        return Ok(None);
    };
    let recorded = due.turn.frame.as_slice();
    let frame = SentFrame::of(alloc, recorded)?;
    let place = numbers.place(frame.as_slice());
    let asked = asked(alloc, site, recorded)?;
    Ok(Some(NextTurn { due, place, asked }))
}

impl<'a> NextTurn<'a> {
    /// Whether the turn can be done: its frame is no message to the site that no step has sent.
    pub fn is_ready(&self, numbers: &FrameNumbers) -> bool
        ensures { (site : ℕ) → result ≡ is_ready_by numbers.now site self.now.place self.now.asked }
    {
        match &self.asked {
            Arrival::Gives { input } => match input {
                Input::Message { .. } => numbers.number(self.place).is_some(),
                Input::Call { .. } | Input::Tick | Input::Probe => true,
            },
            Arrival::Bad { .. } | Arrival::Stray | Arrival::Stops => true,
        }
    }

    /// The event by which the input of the turn comes to the site. A frame that is no input has none.
    pub fn event(&self, site: SiteId, numbers: &FrameNumbers) -> Result<Option<Event>, NoMemory>
        ensures { IfOk result (λ event. event ≡ own_event numbers.now site self.now.place self.now.asked) }
    {
        let Arrival::Gives { input } = &self.asked else {
            return Ok(None);
        };
        match input {
            Input::Call { call, .. } => Ok(Some(Event::Call {
                site,
                call: call.copy_of()?,
            })),
            Input::Message { .. } => {
                let number = numbers.number(self.place);
                Ok(number.map(|k| Event::Deliver { k }))
            }
            Input::Tick => Ok(Some(Event::Tick { site })),
            Input::Probe => Ok(Some(Event::Probe { site })),
        }
    }

    /// Whether the frame is an input of the site or stops its node, and its datagrams are as told.
    pub fn is_told(&self, told: bool) -> bool
        ensures { result ≡ (is_own self.now.asked && told) }
    {
        match &self.asked {
            Arrival::Gives { .. } | Arrival::Stops => told,
            Arrival::Bad { .. } | Arrival::Stray => false,
        }
    }
}

impl<'a> Track<'a> {
    /// The site in its first life, with all its turns left.
    pub fn start(
        alloc: Global,
        site: SiteId,
        recordings: &'a [Recording],
        numbers: &FrameNumbers,
    ) -> Result<Track<'a>, NoMemory>
        ensures site { IfOk result (λ t. t.site ≡ site) }
        ensures left { IfOk result (λ t. track_of t ≡ first_track recordings.now site) }
        ensures is { IfOk result (IsTrack numbers.now) }
    {
        let mut rest = Dues::new(site, recordings);
        let next = take_next(alloc, site, &mut rest, numbers)?;
        Ok(Track {
            site,
            life: 1,
            next,
            rest,
        })
    }

    /// Whether the site has a turn left that can be done.
    pub fn can_go(&self, numbers: &FrameNumbers) -> bool
        ensures { result ≡ can_go numbers.now self.now }
    {
        match &self.next {
            Some(next) => next.is_ready(numbers),
            None => false,
        }
    }

    /// Goes on to the turn after the one that was taken, in its life.
    pub fn advance(
        &mut self,
        alloc: Global,
        life: u32,
        numbers: &FrameNumbers,
    ) -> Result<(), NoMemory>
        ensures site { self.new.site ≡ self.old.site }
        ensures left { OnOk result (track_of self.new ≡ record { life = life; dues = dues_left self.old.rest }) }
        ensures is { OnOk result (IsTrack numbers.now self.new) }
    {
        self.life = life;
        self.next = take_next(alloc, self.site, &mut self.rest, numbers)?;
        Ok(())
    }
}
