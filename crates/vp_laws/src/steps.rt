//! Laws of a single step of a site.

ghost use Rattle.vp_model.specs.World.{Schedule, run_of};
ghost use Rattle.vp_laws.specs.Refusals.{RefusalsChangeNothing};
ghost use Rattle.vp_laws.specs.Completeness.{LastVotesCommit, ReadableCopiesAreRead};

/// After a refusal that comes before a call is done, the site is as it was, and nothing is sent, forced or committed.
pub fn refusals_change_nothing()
    ensures { RefusalsChangeNothing }
{}

/// In every world of every schedule the vote of the last missing site commits a live transaction whose commit is pending, and the
/// commit is answered.
pub fn last_votes_commit()
    ensures { (s : Schedule) → LastVotesCommit s.catalogue (run_of s).world }
{}

/// In every world of every schedule a read of an accessible record, whose copy at the site may be read, gives the content of that
/// copy, where the call is the transaction's next, none is pending, and fewer than 64 calls are answered.
pub fn readable_copies_are_read()
    ensures { (s : Schedule) → ReadableCopiesAreRead s.catalogue (run_of s).world }
{}
