//! Worked reports: their lines are exactly these.

ghost use Rattle.std.specs.Prelude.{◌≡◌, [], ◌∷◌, codes};
ghost use Rattle.vp_audit.specs.Audited.{audit_of};
ghost use Rattle.vp_audit.specs.Lines.{report_text};
ghost use Rattle.vp_audit.specs.Worked as worked;

/// Two sites that never ran.
pub fn two_unused_sites()
    ensures { report_text worked.both (audit_of worked.both (worked.blank_site 1 ∷ worked.blank_site 2 ∷ [])) ≡
        codes "newest x 10 0@0 at 1,2\ncan x yes\n" }
{}

/// One of two sites has half of the weight, which is not enough.
pub fn one_of_two_sites()
    ensures { report_text worked.both (audit_of worked.both (worked.blank_site 1 ∷ [])) ≡
        codes "newest x 10 0@0 at 1\ncan x no 1 of 2\n" }
{}

/// A site in doubt: its copy is not settled, and its transaction is waited for. Alone it has no settled copy, and half of the weight.
pub fn a_site_in_doubt()
    ensures both { report_text worked.both (audit_of worked.both (worked.blank_site 1 ∷ worked.in_doubt ∷ [])) ≡
        codes "newest x 10 0@0 at 1\ndoubt x 1.1.1 0@0 at 2\ncan x wait 1.1.1\n" }
    ensures alone { report_text worked.both (audit_of worked.both (worked.in_doubt ∷ [])) ≡
        codes "unsettled x\ndoubt x 1.1.1 0@0 at 2\ncan x no 1 of 2\n" }
{}

/// One site has applied a write that another has not: its copy is the newer one.
pub fn a_site_that_has_applied()
    ensures { report_text worked.both (audit_of worked.both (worked.blank_site 1 ∷ worked.applied_site ∷ [])) ≡
        codes "newest x 11 1@1 at 2\ncan x yes\n" }
{}

/// One site has applied a deletion that another has not: by the newer copy the record is absent, and that is sure.
pub fn a_deleted_record()
    ensures { report_text worked.both (audit_of worked.both (worked.blank_site 1 ∷ worked.deleted_site ∷ [])) ≡
        codes "absent x 1@1 at 2\ncan x yes\n" }
{}

/// The log of a site is missing that has applied a write in the first view, as the other one has. It counts as a site that has not started:
/// both copies have the date of that view, and the one of the lesser site is named. The report is true of schedules in which site 1 has done
/// nothing.
pub fn a_log_that_is_missing()
    ensures { report_text worked.both (audit_of worked.both (worked.blank_site 1 ∷ worked.committed_site ∷ [])) ≡
        codes "newest x 10 0@0 at 1,2\ncan x yes\n" }
{}
