//! What a turn does in the world: crashes and restarts until its life has come, and then its event.

ghost use Rattle.std.specs.Prelude.{◌≡◌, true, IfSome};
ghost use Rattle.vp_model.specs.Catalogue.{sites_of};
ghost use Rattle.vp_model.specs.Words.{has};
ghost use Rattle.vp_merge.specs.Lives.{StartsLives, TakesEvent};
ghost use Rattle.vp_merge.specs.Played.{IsPlayed, IsPut};
ghost use Rattle.vp_merge.specs.Telling.{bytes_of};

use crate::fault::MergeFault;
use crate::numbers::FrameNumbers;
use crate::played::Played;
use crate::telling::tells;
use bytes::BytesMut;
use vp_base::{Event, Shown, SiteId};
use vp_outside::Datagram;

/// Crashes the site and starts it again.
fn start_again(played: Played, site: SiteId) -> Result<Played, MergeFault>
    requires played { IsPlayed played }
    requires listed { has (sites_of played.world.catalogue) site ≡ true }
    ensures { StartsLives site 1 played result }
{
    let down = played.next(Event::Crash { site })?.into_played()?;
    let up = down.next(Event::Restart { site })?.into_played()?;
    Ok(up)
}

/// Crashes the site and starts it again, so many times.
pub fn start_lives(played: Played, site: SiteId, lives: u32) -> Result<Played, MergeFault>
    requires played { IsPlayed played }
    requires listed { has (sites_of played.world.catalogue) site ≡ true }
    ensures { StartsLives site lives played result }
{
    let mut played = played;
    for _ in 0..lives {
        played = start_again(played, site)?;
    }
    Ok(played)
}

/// Does the event, if there is one, and says whether what is recorded is what its step has given.
pub fn take_event(
    played: Played,
    site: SiteId,
    event: Option<Event>,
    outs: &[Datagram],
    short: bool,
    numbers: &mut FrameNumbers,
    room: &mut BytesMut,
) -> Result<(Played, bool), MergeFault>
    requires played { IsPlayed played }
    requires put { IfSome event (IsPut (sites_of played.world.catalogue)) }
    requires listed { has (sites_of played.world.catalogue) site ≡ true }
    ensures { TakesEvent site event short (bytes_of outs.now) played result numbers.old numbers.new }
{
    let Some(event) = event else {
        let told = tells(site, &Shown::Nothing, outs, short, numbers, room)?;
        return Ok((played, told));
    };
    let step = played.next(event)?;
    let told = tells(site, step.step.shown(), outs, short, numbers, room)?;
    Ok((step.into_played()?, told))
}
