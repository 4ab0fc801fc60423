//! The pairs of sites that are cut off from each other.

ghost use Rattle.std.specs.Prelude.{◌≡◌, ◌&&◌, ◌||◌, ◌==◌, [], OnOk, OnErr, filter, not};
ghost use Rattle.std.specs.List.{list_any};
ghost use Rattle.vp_model.specs.World.{same_pair, with_cut, without_cut};

use std::alloc::Global;
use std::marker::Model;
use vp_base::{NoMemory, SiteId};

/// The pairs that are cut, each one once.
#[derive(Drop)]
pub struct Cuts {
    pairs: Vec<(SiteId, SiteId)>,
}

impl Model for Cuts {
    ghost use Rattle.std.specs.Prelude.{ℕ, List};

    ghost Value = { List (ℕ × ℕ) };

    ghost view = { λ c. c.pairs.items };
}

/// Whether the two are this pair, in either order.
fn is_pair(a: SiteId, b: SiteId, pair: &(SiteId, SiteId)) -> bool
    ensures { result ≡ same_pair a b pair.now }
{
    (pair.0 == a && pair.1 == b) || (pair.0 == b && pair.1 == a)
}

fn drop_pair(pairs: &mut Vec<(SiteId, SiteId)>, a: SiteId, b: SiteId)
    ensures { pairs.new.items ≡ without_cut a b pairs.old.items }
{
    pairs.retain(|pair| !is_pair(a, b, pair));
}

impl Cuts {
    /// Makes it with no pair cut. Takes no memory.
    pub fn none(alloc: Global) -> Cuts
        ensures { result ≡ [] }
    {
        Cuts {
            pairs: Vec::new(alloc),
        }
    }

    /// Whether the pair is cut; the order of the two makes no difference.
    pub fn has(&self, a: SiteId, b: SiteId) -> bool
        ensures { result ≡ list_any (same_pair a b) self.now }
    {
        self.pairs.iter().any(|pair| is_pair(a, b, pair))
    }

    /// Cuts the pair. Where memory is lacking, the cuts stay as they are.
    pub fn cut(&mut self, a: SiteId, b: SiteId) -> Result<(), NoMemory>
        ensures cut { OnOk result (self.new ≡ with_cut a b self.old) }
        ensures err { OnErr result (self.new ≡ self.old) }
    {
        if !self.has(a, b) {
            self.pairs.insert(0, (a, b))?;
        }
        Ok(())
    }

    /// Heals the pair, whether it was cut or not.
    pub fn heal(&mut self, a: SiteId, b: SiteId)
        ensures { self.new ≡ without_cut a b self.old }
    {
        drop_pair(&mut self.pairs, a, b);
    }
}
