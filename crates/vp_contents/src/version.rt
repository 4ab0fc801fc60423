//! The versions of frames and log records.

ghost use Rattle.std.specs.Prelude.{◌≡◌};
ghost use Rattle.vp_contents.specs.Versions.{version_of};

/// How contents are spelled. The first version has values of up to 64 bytes; the second one has contents, which may be absent, longer
/// values, and tables of weights.
#[derive(Clone, Copy, Drop)]
pub enum Version {
    First,
    Second,
}

impl Version {
    /// The version with this number, which is 1 or 2.
    pub fn of(number: u8) -> Version
        ensures { result ≡ version_of number }
    {
        if number == 1 {
            Version::First
        } else {
            Version::Second
        }
    }
}
