//! A merge in progress.

ghost use Rattle.std.specs.Prelude.{◌≡◌, ℕ, List, [], IfOk, OnOk, Some, map, position};
ghost use Rattle.std.specs.List.{AllByRecursion};
ghost use Rattle.vp_model.specs.Catalogue.{sites_of};
ghost use Rattle.vp_catalog.specs.Document.{IsCatalogue};
ghost use Rattle.vp_fitting.specs.Merged.{at_first, first_track};
ghost use Rattle.vp_recording.specs.declared.recording.Recording.{Recording};
ghost use Rattle.vp_merge.specs.Merging.{IsMerging, TakesTurn, state_of, waits_at};
ghost use Rattle.vp_merge.specs.Numbers.{HasFrame, HasTurn, IsIndex};
ghost use Rattle.vp_merge.specs.Tracks.{IsTrack, can_go, track_of};

use crate::fault::MergeFault;
use crate::lives::{start_lives, take_event};
use crate::numbers::FrameNumbers;
use crate::played::Played;
use crate::sent_frame::SentFrame;
use crate::track::Track;
use bytes::BytesMut;
use std::alloc::Global;
use vp_base::NoMemory;
use vp_catalog::Catalog;
use vp_recording::{Recording, Turn};

/// Room for a frame of most kinds, in bytes.
const ROOM: usize = 64;

/// A merge in progress: what was done, what each site has left, and the numbers of the messages that turns take.
#[derive(Drop)]
pub struct Merging<'a> {
    pub played: Played,
    pub tracks: Vec<Track<'a>>,
    pub numbers: FrameNumbers,
    /// Room for one frame.
    pub room: BytesMut,
}

/// No frame has fewer bytes.
const SHORTEST_FRAME: usize = 5;

/// Adds the frames of turns as they are sent, without numbers, but for bytes that are too few for a frame: no message has these.
fn add_frames(alloc: Global, turns: &[Turn], numbers: &mut FrameNumbers) -> Result<(), NoMemory>
    ensures index { OnOk result (IsIndex numbers.old [] → IsIndex numbers.new []) }
    ensures there { OnOk result (AllByRecursion (λ turn. HasTurn numbers.new turn.frame) turns.now) }
    ensures kept { OnOk result ((bytes : List ℕ) → HasFrame numbers.old bytes → HasFrame numbers.new bytes) }
{
    for turn in turns {
        let frame = SentFrame::of(alloc, turn.frame.as_slice())?;
        if frame.as_slice().len() >= SHORTEST_FRAME {
            numbers.add(alloc, frame.as_slice())?;
        }
    }
    Ok(())
}

/// The frames of all turns, without numbers.
fn frames_of(alloc: Global, recordings: &[Recording]) -> Result<FrameNumbers, NoMemory>
    ensures index { IfOk result (λ n. IsIndex n []) }
    ensures there { IfOk result (λ n. AllByRecursion (λ r. AllByRecursion (λ turn. HasTurn n turn.frame) r.turns) recordings.now) }
{
    let mut numbers = FrameNumbers::new(alloc);
    for recording in recordings {
        add_frames(alloc, recording.turns.as_slice(), &mut numbers)?;
    }
    Ok(numbers)
}

/// What each site has left at first.
fn tracks_of<'a>(
    alloc: Global,
    catalog: &Catalog,
    recordings: &'a [Recording],
    numbers: &FrameNumbers,
) -> Result<Vec<Track<'a>>, NoMemory>
    ensures sites { IfOk result (λ ts. map (λ t. t.site) ts.items ≡ sites_of catalog.now) }
    ensures left { IfOk result (λ ts. AllByRecursion (λ t. track_of t ≡ first_track recordings.now t.site) ts.items) }
    ensures are { IfOk result (λ ts. AllByRecursion (IsTrack numbers.now) ts.items) }
{
    let mut tracks = Vec::new(alloc);
    for site in catalog.sites().as_slice() {
        tracks.push(Track::start(alloc, *site, recordings, numbers)?)?;
    }
    Ok(tracks)
}

impl<'a> Merging<'a> {
    /// No turn is taken yet.
    pub fn start(catalog: &Catalog, recordings: &'a [Recording]) -> Result<Merging<'a>, NoMemory>
        requires { IsCatalogue catalog.now }
        ensures merging { IfOk result (IsMerging catalog.now) }
        ensures state { IfOk result (λ m. state_of recordings.now m ≡ at_first catalog.now recordings.now) }
    {
        let alloc = catalog.sites().allocator();
        let numbers = frames_of(alloc, recordings)?;
        Ok(Merging {
            played: Played::start(catalog)?,
            tracks: tracks_of(alloc, catalog, recordings, &numbers)?,
            numbers,
            room: BytesMut::with_capacity(alloc, ROOM)?,
        })
    }

    /// The place of the lowest site whose next turn can be done.
    pub fn ready(&self) -> Option<usize>
        ensures { result ≡ position (can_go self.now.numbers) self.now.tracks.items }
    {
        self.tracks
            .iter()
            .position(|track| track.can_go(&self.numbers))
    }

    /// The lowest site with turns left waits in its next one.
    pub fn waiting(&self) -> Option<MergeFault>
        ensures { result ≡ waits_at self.now.tracks.items }
    {
        for track in &self.tracks {
            if let Some(next) = &track.next {
                return Some(MergeFault::Unsent {
                    site: track.site,
                    turn: next.due.number,
                });
            }
        }
        None
    }

    /// The site at this place takes its next turn.
    pub fn take_turn(self, place: usize) -> Result<Merging<'a>, MergeFault>
        requires merging { IsMerging self.played.world.catalogue self }
        requires ready { position (can_go self.numbers) self.tracks.items ≡ Some place }
        ensures { (recordings : List Recording) → TakesTurn self.entry.played.world.catalogue recordings self.entry result }
    {
        let Merging {
            played,
            mut tracks,
            mut numbers,
            mut room,
        } = self;
        let alloc = *tracks.allocator();
        let track = &mut tracks[place];
        let Some(next) = track.next.take() else {
            unreachable!()
        };
        let due = next.due;
        let event = next.event(track.site, &numbers)?;
        let played = start_lives(played, track.site, due.life.saturating_sub(track.life))?;
        let outs = due.turn.outs.as_slice();
        let (played, told) = take_event(
            played,
            track.site,
            event,
            outs,
            due.short,
            &mut numbers,
            &mut room,
        )?;
        if !next.is_told(told) {
            return Err(MergeFault::Differs {
                site: track.site,
                turn: due.number,
            });
        }
        track.advance(alloc, due.life, &numbers)?;
        Ok(Merging {
            played,
            tracks,
            numbers,
            room,
        })
    }
}
