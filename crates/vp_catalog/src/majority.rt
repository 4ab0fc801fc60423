//! The law of majorities.

ghost use Rattle.std.specs.Prelude.{◌≡◌, ℕ, List, true};
ghost use Rattle.vp_model.specs.Catalogue.{Catalogue, weights_of, accessible};
ghost use Rattle.vp_catalog.specs.Majorities.{IsMajority, SharesHolder};

/// Any two majorities of one table of weights share a holder, so any two sets of sites in which a record is accessible share a
/// holder of it. The function does nothing; its contract is the law.
pub fn majorities_share_a_holder()
    ensures any { (weights : List (ℕ × ℕ)) (members others : List ℕ) → IsMajority members weights →
        IsMajority others weights → SharesHolder weights members others }
    ensures accessible { (c : Catalogue) (rec : ℕ) (members others : List ℕ) →
        accessible c rec members ≡ true → accessible c rec others ≡ true →
        SharesHolder (weights_of c rec) members others }
{}
