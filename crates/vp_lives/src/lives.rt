//! Serving, with a contract that says what happened to a process of a cluster.

ghost use Rattle.std.specs.Prelude.{◌≡◌, true, None, IsTrue};
ghost use Rattle.vp_model.specs.Words.{has};
ghost use Rattle.vp_model.specs.Catalogue.{sites_of};
ghost use Rattle.vp_serving.specs.Serving.{Serves, either, outside};
ghost use Rattle.vp_lives.specs.Served.{LivesIn};

use vp_base::SiteId;
use vp_catalog::Catalog;
use vp_outside::{Disk, Link, Sink};
use vp_serving::{End, runs_are_handed_over, serve};
use vp_stable::halves_are_one_log;

/// Serves as `serve` does. Whatever the end is, on an honest disk, it is what happened to a process of a cluster: its log is what a crash
/// leaves, and what was handed over is what it handed over.
pub fn serve_a_life<L: Link, D: Disk, K: Sink>(
    catalog: &Catalog,
    id: SiteId,
    link: &mut L,
    disk: &mut D,
    sink: &mut K,
    turns: u64,
) -> Result<End, End>
    requires fresh { (L.state link.old).asked ≡ None }
    requires attached { IsTrue (D.state disk.old).attached }
    requires id { has (sites_of catalog.now) id ≡ true }
    ensures served { Serves catalog.now id turns
        (outside (L.state link.old) (L.state link.new) (K.state sink.old) (K.state sink.new) (D.state disk.old) (D.state disk.new)) (either result) }
    ensures lives { LivesIn catalog.now id
        (outside (L.state link.old) (L.state link.new) (K.state sink.old) (K.state sink.new) (D.state disk.old) (D.state disk.new)) (either result) }
{
    halves_are_one_log();
    runs_are_handed_over();
    serve(catalog, id, link, disk, sink, turns)
}
