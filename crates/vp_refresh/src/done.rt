//! What comes out of a refresh.

ghost use Rattle.std.specs.Prelude.{◌≡◌};

use vp_base::Stored;

/// The newest copy of a record, with the weight of its copies at the members of the view and the weight of all of them, by the table
/// of that copy.
pub struct Done {
    pub stored: Stored,
    pub inside: u32,
    pub total: u32,
}

impl Drop for Done {
    fn drop(self) {
        let Done {
            stored: _,
            inside: _,
            total: _,
        } = self;
    }
}

impl Done {
    /// Gives the copy without copying it.
    pub fn into_stored(self) -> Stored
        ensures { result ≡ self.stored }
    {
        let Done {
            stored,
            inside: _,
            total: _,
        } = self;
        stored
    }
}
