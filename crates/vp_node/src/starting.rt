//! The site that starts from the batches of a log.

ghost use Rattle.std.specs.Prelude.{◌≡◌, ◌<◌, ◌-◌, ◌^◌, ◌∷◌, [], ℕ, IfOk, IsErrOf};
ghost use Rattle.vp_model.specs.Step.{start_record};
ghost use Rattle.vp_runs.specs.Keeping.{durable_in};
ghost use Rattle.vp_runs.specs.Runs.{start_node};
ghost use Rattle.vp_node.specs.Causes.{EndsWithoutDisk};
ghost use Rattle.vp_node.specs.declared.end.NodeEnd.TheVariants as ends;

use crate::end::NodeEnd;
use vp_base::{Batch, Batches, NoMemory, SiteId};
use vp_catalog::Catalog;
use vp_records::Durable;
use vp_site::Site;

/// Folds the batches, from the first copies of the site on.
pub fn fold_batches(catalog: &Catalog, id: SiteId, batches: &Batches) -> Result<Durable, NoMemory>
    ensures { IfOk result (λ durable. durable ≡ durable_in catalog.now id batches.now) }
{
    let mut durable = Durable::empty(catalog.copies(id)?);
    for batch in batches.as_slice() {
        durable.apply_all(batch.as_slice())?;
    }
    Ok(durable)
}

/// Starts the site in its next life, and makes the batch that must be appended to its log before the site does anything.
pub fn next_life(catalog: &Catalog, id: SiteId, batches: &Batches) -> Result<(Site, Batch), NodeEnd>
    ensures site { IfOk result (λ it. it.0 ≡ (start_node catalog.now id batches.now).site) }
    ensures batch { IfOk result (λ it. it.1 ≡ start_record (durable_in catalog.now id batches.now) ∷ []) }
    ensures left { IfOk result (λ _. (durable_in catalog.now id batches.now).life < 2 ^ 32 - 1) }
    ensures spent { (life : ℕ) → IsErrOf result (ends.LivesSpent life)
        → (life ≡ 2 ^ 32 - 1) × ((durable_in catalog.now id batches.now).life ≡ life) }
    ensures ends { EndsWithoutDisk result }
{
    let durable = fold_batches(catalog, id, batches)?;
    let (site, entry) = Site::start(catalog, id, durable)?;
    let mut batch = Batch::new(catalog.sites().allocator());
    batch.push(entry)?;
    Ok((site, batch))
}
