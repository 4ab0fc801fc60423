//! A site in a step.

ghost use Rattle.std.specs.Prelude.{◌≡◌, OnOk, IfOk, option_map, option_copied};
ghost use Rattle.vp_model.specs.Site.{begin_step, force, send, reply};
ghost use Rattle.vp_model.specs.Messages.{holds_view, held_id};
ghost use Rattle.vp_model.specs.Words.{value_at};

use std::alloc::Global;
use std::marker::Model;
use vp_base::{
    Answer, CopyOf, Effects, LogRecord, Message, NoMemory, RecId, SiteId, Stored, View, ViewId,
};
use vp_coordinator::Coordinator;
use vp_participant::Participant;
use vp_records::SiteCopies;
use vp_refresh::Refresh;
use vp_views::Views;

/// A site that is up, each part by its own crate, with the effects of its step so far; between steps it has none. `lent` has the
/// transactions that began here, the locks, the copies and the effects. After want of memory it may only be dropped.
pub struct Stepped {
    pub id: SiteId,
    pub life: u32,
    pub views: Views,
    pub participant: Participant,
    pub refresh: Refresh,
    pub coordinator: Coordinator,
}

impl Drop for Stepped {
    fn drop(self) {
        let Stepped {
            id: _,
            life: _,
            views: _,
            participant: _,
            refresh: _,
            coordinator: _,
        } = self;
    }
}

impl Model for Stepped {
    ghost use Rattle.std.specs.Prelude.{◌≡◌};
    ghost use Rattle.vp_model.specs.Site.{Stepped as SteppedState};

    ghost Value = { SteppedState };

    ghost view = { λ o. record {
      site = record {
        id = o.id;
        life = o.life;
        views = o.views.views;
        here = o.coordinator.here;
        participant = o.participant;
        refresh = o.refresh;
        coordinator = o.coordinator.coordinator;
      };
      effects = o.coordinator.effects;
    } };

    ghost invariant = { λ o. o.views.id ≡ o.id };
}

impl Stepped {
    /// Takes the effects of the step, which ends.
    pub fn take_effects(&mut self) -> Effects
        ensures effects { result ≡ self.old.effects }
        ensures left { self.new ≡ begin_step self.old.site }
    {
        self.coordinator.take_effects()
    }

    /// Adds a log record, to be forced before the messages and replies of the step leave the site.
    pub fn force(&mut self, entry: LogRecord) -> Result<(), NoMemory>
        ensures { OnOk result (self.new ≡ force entry self.old) }
    {
        self.coordinator.effects.force(entry)
    }

    /// Adds a message to the site, after those of the step so far.
    pub fn send(&mut self, to: SiteId, message: Message) -> Result<(), NoMemory>
        ensures { OnOk result (self.new ≡ send message to self.old) }
    {
        self.coordinator.effects.send(self.id, to, message)
    }

    /// Adds a reply to the client at the port, after those of the step so far.
    pub fn reply(&mut self, to: u16, answer: Answer) -> Result<(), NoMemory>
        ensures { OnOk result (self.new ≡ reply answer to self.old) }
    {
        self.coordinator.effects.reply(to, answer)
    }

    /// The identifier of the held view, if the site holds one.
    pub fn held_id(&self) -> Option<ViewId>
        ensures { result ≡ held_id self.now.site }
    {
        self.views.held().map(|view| view.id)
    }

    /// Copies the held view, if the site holds one.
    pub fn held_view(&self) -> Result<Option<View>, NoMemory>
        ensures { IfOk result (λ held. held ≡ self.now.site.held) }
    {
        self.views.held().map(|view| view.copy_of()).transpose()
    }

    pub(crate) fn allocator(&self) -> Global {
        self.coordinator.allocator()
    }

    /// Whether the view that the site holds has this identifier.
    pub fn holds_view(&self, id: ViewId) -> bool
        ensures { result ≡ holds_view self.now.site id }
    {
        self.views.held().is_some_and(|view| view.id == id)
    }

    pub(crate) fn copies(&self) -> &SiteCopies
        ensures { result.now ≡ self.now.site.copies }
    {
        &self.coordinator.here.copies
    }

    /// Copies what is stored here of the record; none where the site is no holder of it.
    pub fn copy_here(&self, rec: RecId) -> Result<Option<Stored>, NoMemory>
        ensures { IfOk result (λ stored. stored ≡ value_at rec self.now.site.copies) }
    {
        self.coordinator
            .here
            .copies
            .get(rec)
            .map(|stored| stored.copy_of())
            .transpose()
    }
}
