//! The laws of lives, as the contracts of functions that do nothing.

ghost use Rattle.vp_lives.specs.Clients.{ClientsAreAnswered};
ghost use Rattle.vp_lives.specs.Killed.{KillsHappen};

/// The answer that `ask` returns is one that a step of the site gave in a schedule with the steps of the cluster.
pub fn clients_are_answered()
    ensures { ClientsAreAnswered }
{}

/// Wherever a process is killed while it serves, that is what happened to a process of a cluster: its log is what the crash leaves, and
/// it has handed over just what was handed over.
pub fn kills_happen()
    ensures { KillsHappen }
{}
