//! Whether a site holds a view, waits for one or invites to one.

ghost use Rattle.std.specs.Prelude.{◌≡◌, OnOk};
ghost use Rattle.vp_views.specs.Viewing.{IsPromised, accepted_by, heard_by, listening, held_in, awaits};

use vp_base::{CopyOf, NoMemory, SiteId, Sites, View, ViewId};
use vp_lists::put_in;

/// What a site has of views: at most one of a view that it holds, one that it waits for and one that it invites to. The identifier
/// of each is the promise.
#[derive(Drop)]
pub enum Standing {
    /// It neither holds a view, nor waits for or invites to one.
    Apart,
    /// `heard` are the sites whose probes have come since the site last sent its own; `None` until it first does so in this view.
    Holding { view: View, heard: Option<Sites> },
    /// It has accepted an invitation and waits for the view.
    Waiting,
    /// It invites to a view; `accepted` are the sites that have accepted so far, ascending, itself included.
    Inviting { accepted: Sites },
}

impl CopyOf for Standing {
    fn copy_of(&self) -> Result<Standing, NoMemory> {
        Ok(match self {
            Standing::Apart => Standing::Apart,
            Standing::Holding { view, heard } => Standing::Holding {
                view: view.copy_of()?,
                heard: match heard {
                    None => None,
                    Some(sites) => Some(sites.copy_of()?),
                },
            },
            Standing::Waiting => Standing::Waiting,
            Standing::Inviting { accepted } => Standing::Inviting {
                accepted: accepted.copy_of()?,
            },
        })
    }
}

impl Standing {
    /// Whether the site waits for a view.
    pub fn is_waiting(&self) -> bool
        ensures { result ≡ awaits self.now }
    {
        matches!(self, Standing::Waiting)
    }

    /// Adds the site to those that have accepted, where the site invites.
    pub fn accept(&mut self, site: SiteId) -> Result<(), NoMemory>
        ensures row { OnOk result (self.new ≡ accepted_by site self.old) }
        ensures promised { (promise : ViewId) → IsPromised promise self.old → IsPromised promise self.new }
    {
        match self {
            Standing::Inviting { accepted } => put_in(accepted, site),
            _ => Ok(()),
        }
    }

    /// Adds the site to those that were heard, where it holds a view and has sent probes.
    pub fn hear(&mut self, site: SiteId) -> Result<(), NoMemory>
        ensures row { OnOk result (self.new ≡ heard_by site self.old) }
        ensures promised { (promise : ViewId) → IsPromised promise self.old → IsPromised promise self.new }
    {
        match self {
            Standing::Holding {
                heard: Some(heard),
                ..
            } => put_in(heard, site),
            _ => Ok(()),
        }
    }

    /// Begins to note which sites are heard, where a view is held, and returns that view's identifier.
    pub fn listen(&mut self) -> Option<ViewId>
        ensures view { result ≡ held_in self.old }
        ensures standing { self.new ≡ listening self.old }
        ensures promised { (promise : ViewId) → IsPromised promise self.old → IsPromised promise self.new }
    {
        match self {
            Standing::Holding { view, heard } => {
                *heard = Some(Sites::new(view.members.allocator()));
                Some(view.id)
            }
            _ => None,
        }
    }
}
