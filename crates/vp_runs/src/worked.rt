//! Worked runs: the result of each is exactly this.

ghost use Rattle.std.specs.Prelude.{◌≡◌, [], ◌∷◌, ◌++◌, None, Some, codes, map};
ghost use Rattle.vp_model.specs.Types.answer;
ghost use Rattle.vp_model.specs.Types.call;
ghost use Rattle.vp_outside.specs.declared.datagram.Datagram.{Datagram};
ghost use Rattle.vp_runs.specs.Asking.{first_answer};
ghost use Rattle.vp_runs.specs.Runs.{node_run, recorded_bytes};
ghost use Rattle.vp_runs.specs.Turns.{end_line};
ghost use Rattle.vp_runs.specs.Worked as worked;

/// The recording of a begin at a site that is alone, with the bytes of its reply.
pub fn a_begin()
    ensures { recorded_bytes (node_run worked.alone 1 [] (worked.begin ∷ [])) ++ end_line
        ≡ codes "start 1\nin 560220000101\nout 560221010001010000000100000001000000000000000000\nend\n" }
{}

/// Frames for another site or from a wrong port are stray, other bytes bad; after a stop nothing is done.
pub fn what_is_passed_over()
    ensures { recorded_bytes (node_run worked.alone 1 [] worked.passed_over)
        ≡ codes "start 1\nstray 560120000201\nstray 56010b0101010000000100000001\nbad 2\nin 5601240001\n" }
{}

/// Each turn of a commit hands over its message before its reply, and the decision is in the log.
pub fn a_commit_of_two_sites()
    ensures ports { map (λ (d : Datagram). d.port) (node_run worked.both 1 [] worked.commit).datagrams ≡
        7100 ∷ 7002 ∷ 7100 ∷ 7002 ∷ 7002 ∷ 7100 ∷ [] }
    ensures log { (node_run worked.both 1 [] worked.commit).node.batches ≡ worked.committed_log }
{}

/// An answer of another transaction, with another number or from another port is ignored; one that names the transaction alone is taken.
pub fn an_answer_among_others()
    ensures none { first_answer 7001 1 (call.Commit (worked.txn 1) 2) worked.others ≡ None }
    ensures right { first_answer 7001 1 (call.Commit (worked.txn 1) 2)
        (worked.others ++ worked.datagram_of_reply 7001 (answer.Committed (worked.txn 1) 2) ∷ []) ≡
        Some (answer.Committed (worked.txn 1) 2) }
    ensures unknown { first_answer 7001 1 (call.Commit (worked.txn 1) 2)
        (worked.others ++ worked.datagram_of_reply 7001 (answer.Unknown (worked.txn 1)) ∷ []) ≡
        Some (answer.Unknown (worked.txn 1)) }
{}
