//! Bars: records that may not be used in the held view.

ghost use Rattle.std.specs.Prelude.{◌≡◌};
ghost use Rattle.vp_base.specs.Tables.{value_at};

use crate::ids::RecId;
use crate::seq::Seq;

/// Records that may not be used in the held view, with the weight inside it and the whole weight, ascending by record.
pub type Bars = Seq<(RecId, (u32, u32))>;

impl Bars {
    /// The bar on the record, the weight inside the held view and the whole weight; `None` exactly where the record isn't listed.
    pub fn find(&self, rec: RecId) -> Option<(u32, u32)>
        ensures { result ≡ value_at rec self.now }
    {
        self.as_slice()
            .iter()
            .find(|bar| bar.0 == rec)
            .map(|bar| bar.1)
    }
}
