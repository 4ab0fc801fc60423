//! What a call reads of its site.

use vp_base::{SiteId, View, ViewId};
use vp_catalog::Catalog;

/// What the row of a call reads of its site and never changes.
#[derive(Clone, Copy)]
pub struct Around<'c, 'v> {
    pub catalog: &'c Catalog,
    pub held: Option<&'v View>,
    pub id: SiteId,
    pub life: u32,
    pub promise: ViewId,
}
