//! An event that was done in a world.

ghost use Rattle.std.specs.Prelude.{◌≡◌, IfOk};

use crate::state::State;
use crate::world::World;
use std::marker::Model;
use vp_base::{NoMemory, Shown};
use vp_catalog::Catalog;

/// An event that was done in a world. A contract sees the world after it and what the trace shows under the event. The messages and
/// the commits of the step are held there until the world goes on, so that none is copied.
pub struct WorldStep {
    pub(crate) catalog: Box<Catalog>,
    pub(crate) state: Box<State>,
    pub(crate) shown: Shown,
}

impl Drop for WorldStep {
    fn drop(self) {
        let WorldStep {
            catalog: _,
            state: _,
            shown: _,
        } = self;
    }
}

impl Model for WorldStep {
    ghost use Rattle.vp_model.specs.Types.{Shown};
    ghost use Rattle.vp_world.specs.Known.{Known, IsWithinLimits};
    ghost use Rattle.vp_world.specs.Limits.{with_line};

    ghost Value = { Known × Shown };

    ghost view = { λ h. (record { catalogue = h.catalog.value; world = with_line h.shown h.state.value }, h.shown) };

    ghost invariant = { λ h. IsWithinLimits (with_line h.shown h.state.value) };
}

impl WorldStep {
    /// What the trace shows under the event.
    pub fn shown(&self) -> &Shown
        ensures { result.now ≡ self.now.1 }
    {
        &self.shown
    }

    /// The catalogue of the world.
    pub fn catalog(&self) -> &Catalog
        ensures { result.now ≡ self.now.0.catalogue }
    {
        &self.catalog
    }

    /// Takes out the world after the event, and moves the messages and the commits into it.
    pub fn into_world(self) -> Result<World, NoMemory>
        ensures { IfOk result (λ w. w ≡ self.0) }
    {
        let WorldStep {
            catalog,
            mut state,
            shown,
        } = self;
        state.keep(shown)?;
        Ok(World { catalog, state })
    }
}
