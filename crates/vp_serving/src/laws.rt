//! The laws of serving, as the contracts of functions that do nothing.

ghost use Rattle.std.specs.Prelude.{◌≡◌, [], ◌∷◌, map};
ghost use Rattle.vp_outside.specs.declared.datagram.Dispatch.{Dispatch};
ghost use Rattle.vp_runs.specs.Worked as worked;
ghost use Rattle.vp_serving.specs.Handed.{handed_in};
ghost use Rattle.vp_serving.specs.Laws.{RunsAreHandedOver};

/// The turns of a run hand over the datagrams of the run, whatever comes and however many datagrams had been given before.
pub fn runs_are_handed_over()
    ensures { RunsAreHandedOver }
{}

/// The five turns of a commit of two sites, where three datagrams had been given before: each turn's datagrams are handed over when
/// its own had been given.
pub fn a_commit_is_handed_over()
    ensures at_once { map (λ (h : Dispatch). h.after) (handed_in worked.both 1 [] 3 worked.commit 5) ≡ 4 ∷ 5 ∷
        6 ∷ 7 ∷ 8 ∷ 8 ∷ [] }
    ensures ports { map (λ (h : Dispatch). h.datagram.port) (handed_in worked.both 1 [] 3 worked.commit 5) ≡
        7100 ∷ 7002 ∷ 7100 ∷ 7002 ∷ 7002 ∷ 7100 ∷ [] }
{}
