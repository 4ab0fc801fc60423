//! The views of a site.

ghost use Rattle.std.specs.Prelude.{◌≡◌, ◌&&◌, ◌==◌, not, true, false, OnOk, IfOk, IfSome, IsTrue, IsSome, if◌then◌else◌, is_some, option_copied, option_map, filter, None};
ghost use Rattle.vp_model.specs.Words.{has, view_before, opening};
ghost use Rattle.vp_model.specs.Catalogue.{sites_of};
ghost use Rattle.vp_model.specs.Site.{with_messages};
ghost use Rattle.vp_model.specs.Views.{other_sites, without_view, with_view};
ghost use Rattle.vp_model.specs.Messages.{with_accepted, with_seen};
ghost use Rattle.vp_model.specs.Step.{without_wait};
ghost use Rattle.vp_views.specs.Viewing.{Viewing, view_step, change, start_views, invitable, Invites, IsApart, receive_invite, joins, fix_members, fixing, hearing, wants, probing};

use crate::fault::{InviteFault, Spent};
use crate::sites::is_odd;
use crate::standing::Standing;
use std::marker::Model;
use vp_base::{
    CopyOf, Effects, LogRecord, Message, NoMemory, SiteId, Sites, View, ViewId, has_site,
};
use vp_catalog::{Catalog, alone, others_of};
use vp_lists::view_comes_before;

/// What a site knows of views. After an error the value and the effects may be changed in part: drop both.
pub struct Views {
    id: SiteId,
    promise: ViewId,
    seen: u64,
    standing: Standing,
}

impl Drop for Views {
    fn drop(self) {
        let Views {
            id: _,
            promise: _,
            seen: _,
            standing: _,
        } = self;
    }
}

impl Model for Views {
    ghost use Rattle.vp_views.specs.Viewing.{Viewing, state, IsPromised};

    ghost Value = { Viewing };

    ghost view = { λ v. record { id = v.id; views = state v.promise v.seen v.standing } };

    ghost invariant = { λ v. IsPromised v.promise v.standing };
}

impl CopyOf for Views {
    fn copy_of(&self) -> Result<Views, NoMemory> {
        Ok(Views {
            id: self.id,
            promise: self.promise,
            seen: self.seen,
            standing: self.standing.copy_of()?,
        })
    }
}

impl Views {
    /// The state of a site that starts with this promise: in the opening view, whose members are all sites, or in no view.
    pub fn start(
        catalog: &Catalog,
        id: SiteId,
        promise: ViewId,
        is_opening: bool,
    ) -> Result<Views, NoMemory>
        requires { IsTrue is_opening → promise ≡ opening }
        ensures { IfOk result (λ v. v ≡ record { id = id; views = start_views catalog.now promise is_opening }) }
    {
        let standing = if is_opening {
            Standing::Holding {
                view: View {
                    id: promise,
                    members: catalog.sites().copy_of()?,
                },
                heard: None,
            }
        } else {
            Standing::Apart
        };
        Ok(Views {
            id,
            promise,
            seen: 0,
            standing,
        })
    }

    /// The highest identifier that the site has accepted or made.
    pub fn promise(&self) -> ViewId
        ensures { result ≡ self.now.promise }
    {
        self.promise
    }

    /// The view that the site holds.
    pub fn held(&self) -> Option<&View>
        ensures view { option_copied result ≡ self.now.held }
        ensures promised { IfSome self.now.held (λ view. view.id ≡ self.now.promise) }
        ensures alone { IsSome self.now.held → (self.now.waiting ≡ None) × (self.now.inviting ≡ None) }
    {
        match &self.standing {
            Standing::Holding { view, .. } => Some(view),
            _ => None,
        }
    }

    /// The identifier that the site has accepted and whose view has not come yet.
    pub fn waiting(&self) -> Option<ViewId>
        ensures view { result ≡ self.now.waiting }
        ensures promised { IfSome result (λ id. id ≡ self.now.promise) }
        ensures alone { IsSome result → (self.now.held ≡ None) × (self.now.inviting ≡ None) }
    {
        match &self.standing {
            Standing::Waiting => Some(self.promise),
            _ => None,
        }
    }

    /// The identifier that the site invites to.
    pub fn inviting(&self) -> Option<ViewId>
        ensures view { result ≡ option_map (λ inviting. inviting.0) self.now.inviting }
        ensures promised { IfSome result (λ id. id ≡ self.now.promise) }
        ensures alone { IsSome result → (self.now.held ≡ None) × (self.now.waiting ≡ None) }
    {
        match &self.standing {
            Standing::Inviting { .. } => Some(self.promise),
            _ => None,
        }
    }

    /// The identifier of the next invitation: its number is one above every number that was promised here or named by another site.
    pub fn invitable(&self) -> Result<ViewId, Spent>
        ensures { result ≡ invitable self.now }
    {
        let highest = self.promise.number.max(self.seen);
        if highest == u64::MAX {
            return Err(Spent { number: highest });
        }
        Ok(ViewId {
            number: highest + 1,
            site: self.id.get(),
        })
    }

    /// Invites every other site of the catalogue to a new view. The promise is to be forced before the invitations are sent.
    pub fn invite(
        &mut self,
        catalog: &Catalog,
        effects: &mut Effects,
    ) -> Result<ViewId, InviteFault>
        requires { IsApart self.old.views }
        ensures row { Invites catalog.now result (view_step self.old effects.old) (view_step self.new effects.new) }
        ensures id { self.new.id ≡ self.old.id }
        ensures promise { view_before self.new.promise self.old.promise ≡ false }
    {
        let id = self.invitable()?;
        let accepted = alone(catalog.sites().allocator(), self.id)?;
        effects.force(LogRecord::Promise { view: id })?;
        self.send_to_others(catalog, &Message::Invite { id }, effects)?;
        self.promise = id;
        self.standing = Standing::Inviting { accepted };
        Ok(id)
    }

    /// Handles an invitation to `id`. Returns true where it is above the promise and so is accepted; the site must have left its
    /// view before.
    pub fn on_invite(
        &mut self,
        from: SiteId,
        id: ViewId,
        effects: &mut Effects,
    ) -> Result<bool, NoMemory>
        requires { view_before self.old.promise id ≡ true → IsApart self.old.views }
        ensures accepted { IfOk result (λ accepted. accepted ≡ view_before self.old.promise id) }
        ensures row { OnOk result
            (view_step self.new effects.new ≡ receive_invite from id (view_step self.old effects.old)) }
        ensures id { self.new.id ≡ self.old.id }
        ensures promise { view_before self.new.promise self.old.promise ≡ false }
    {
        if view_comes_before(&self.promise, &id) {
            effects.force(LogRecord::Promise { view: id })?;
            effects.send(self.id, from, Message::Accept { id })?;
            self.promise = id;
            self.standing = Standing::Waiting;
            return Ok(true);
        }
        self.answer_old(from, id, effects)?;
        Ok(false)
    }

    /// Handles an acceptance of `id`: a site that invites to `id` notes that `from` has accepted.
    pub fn on_accept(&mut self, from: SiteId, id: ViewId) -> Result<(), NoMemory>
        ensures row { OnOk result (self.new ≡ change (with_accepted from id) self.old) }
        ensures id { self.new.id ≡ self.old.id }
    {
        if self.promise == id {
            self.standing.accept(from)?;
        }
        Ok(())
    }

    /// Handles the promise that another site named, so that the next invitation exceeds it.
    pub fn on_stale(&mut self, promise: ViewId)
        ensures { self.new ≡ change (with_seen promise) self.old }
    {
        self.seen = self.seen.max(promise.number);
    }

    /// Ends the invitation, where there is one: the sites that have accepted are the members of the view, which is then held.
    /// Returns whether there was one.
    pub fn fix(&mut self, effects: &mut Effects) -> Result<bool, NoMemory>
        ensures inviting { IfOk result (λ was. was ≡ is_some self.old.inviting) }
        ensures row { OnOk result (view_step self.new effects.new ≡ fix_members (view_step self.old effects.old)) }
        ensures id { self.new.id ≡ self.old.id }
    {
        match self.accepted()? {
            None => Ok(false),
            Some(members) => {
                self.fix_as(members, effects)?;
                Ok(true)
            }
        }
    }

    /// The sites that have accepted the invitation, where there is one.
    fn accepted(&self) -> Result<Option<Sites>, NoMemory>
        ensures sites { IfOk result
            (λ sites. self.now.inviting ≡ option_map (λ members. (self.now.promise, members)) sites) }
        ensures silent { IfOk result (λ sites. IsSome sites → self.now.monitor ≡ None) }
    {
        match &self.standing {
            Standing::Inviting { accepted } => Ok(Some(accepted.copy_of()?)),
            _ => Ok(None),
        }
    }

    /// Ends the invitation with these members.
    fn fix_as(&mut self, members: Sites, effects: &mut Effects) -> Result<(), NoMemory>
        requires { self.old.monitor ≡ None }
        ensures row { OnOk result
            (view_step self.new effects.new ≡ fixing (self.old.promise, members) (view_step self.old effects.old)) }
        ensures id { self.new.id ≡ self.old.id }
    {
        let others = others_of(&members, self.id)?;
        let message = Message::ViewCommit {
            id: self.promise,
            members: members.copy_of()?,
        };
        effects.send_all(self.id, others.as_slice(), &message)?;
        self.hold(members);
        Ok(())
    }

    /// Handles a view that comes: it is held where the site waits for it and is a member of it. Returns whether it is.
    pub fn on_commit(&mut self, view: &View) -> Result<bool, NoMemory>
        ensures joined { IfOk result (λ joined. joined ≡ joins view.now self.old) }
        ensures views { OnOk result
            (self.new ≡
            (if joins view.now self.old then change (with_view view.now) self.old else self.old)) }
        ensures id { self.new.id ≡ self.old.id }
    {
        if self.standing.is_waiting()
            && self.promise == view.id
            && has_site(view.members.as_slice(), self.id)
        {
            let members = view.members.copy_of()?;
            self.hold(members);
            Ok(true)
        } else {
            Ok(false)
        }
    }

    /// Holds the promised view, with these members.
    fn hold(&mut self, members: Sites)
        requires { self.old.monitor ≡ None }
        ensures { self.new ≡
            change (with_view (record { id = self.old.promise; members = members })) self.old }
    {
        self.standing = Standing::Holding {
            view: View {
                id: self.promise,
                members,
            },
            heard: None,
        };
    }

    /// Answers an invitation that is not above the promise.
    fn answer_old(&self, from: SiteId, id: ViewId, effects: &mut Effects) -> Result<(), NoMemory>
        requires { view_before self.now.promise id ≡ false }
        ensures { OnOk result (view_step self.now effects.new ≡ receive_invite from id (view_step self.now effects.old)) }
    {
        if view_comes_before(&id, &self.promise) {
            effects.send(
                self.id,
                from,
                Message::Stale {
                    id,
                    promise: self.promise,
                },
            )
        } else if self.standing.is_waiting() {
            effects.send(self.id, from, Message::Accept { id })
        } else {
            Ok(())
        }
    }

    /// Leaves the held view, and waits for no view and invites to none any more.
    pub fn leave(&mut self)
        ensures { self.new ≡ change without_view self.old }
    {
        self.standing = Standing::Apart;
    }

    /// Ends the wait for a view, where there is one.
    pub fn stop_waiting(&mut self)
        ensures { self.new ≡ change without_wait self.old }
    {
        if self.standing.is_waiting() {
            self.standing = Standing::Apart;
        }
    }

    /// Handles a probe of another site.
    pub fn heard(&mut self, site: SiteId) -> Result<(), NoMemory>
        ensures row { OnOk result (self.new ≡ hearing site self.old) }
        ensures id { self.new.id ≡ self.old.id }
    {
        self.standing.hear(site)
    }

    /// Whether the site should invite to another view: since its last probes a member was not heard, or a site that is not a member
    /// was.
    pub fn wants_view(&self) -> bool
        ensures { result ≡ wants self.now }
    {
        match &self.standing {
            Standing::Holding {
                view,
                heard: Some(heard),
            } => is_odd(self.id, view.members.as_slice(), heard.as_slice()),
            _ => false,
        }
    }

    /// Probes every other site of the catalogue, where a view is held, and begins to note which sites are heard.
    pub fn probe(&mut self, catalog: &Catalog, effects: &mut Effects) -> Result<(), NoMemory>
        ensures row { OnOk result
            (view_step self.new effects.new ≡ probing catalog.now (view_step self.old effects.old)) }
        ensures id { self.new.id ≡ self.old.id }
    {
        match self.standing.listen() {
            None => Ok(()),
            Some(view) => self.send_to_others(catalog, &Message::Probe { view }, effects),
        }
    }

    /// Sends the message to every other site of the catalogue.
    fn send_to_others(
        &self,
        catalog: &Catalog,
        message: &Message,
        effects: &mut Effects,
    ) -> Result<(), NoMemory>
        ensures { OnOk result
            (effects.new ≡
            with_messages self.now.id message.now (other_sites catalog.now self.now.id) effects.old) }
    {
        let others = others_of(catalog.sites(), self.id)?;
        effects.send_all(self.id, others.as_slice(), message)
    }
}
