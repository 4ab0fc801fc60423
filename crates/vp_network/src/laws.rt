//! The laws of clusters, as the contracts of functions that do nothing.

ghost use Rattle.vp_network.specs.Laws.{ClustersAreSchedules, ClustersAreSound};
ghost use Rattle.vp_network.specs.Nodes.{ProcessesAreNodes};
ghost use Rattle.vp_network.specs.Lives.{RunsHappen};
ghost use Rattle.vp_network.specs.Ends.{LivesFollow, RunsBreak, RunsEnd};
ghost use Rattle.vp_network.specs.Serial.{ClustersAreSerial};
ghost use Rattle.vp_network.specs.InTime.{ClustersComeInTime};
ghost use Rattle.vp_network.specs.Apart.{ProcessesAreApart};
ghost use Rattle.vp_network.specs.Together.{ProcessesMakeClusters};
ghost use Rattle.vp_network.specs.Asked.{HandedRepliesAnswer, RepliesAnswerCalls};

/// Whatever comes to the processes of a cluster, and however they are killed: what they do together is a schedule.
pub fn clusters_are_schedules()
    ensures { ClustersAreSchedules }
{}

/// So the processes of a cluster are one copy (Bernstein, Hadzilacos and Goodman 1987, chapter 8), also where transactions change weights; its
/// sites agree, and its commits come in time.
pub fn clusters_are_sound()
    ensures { ClustersAreSound }
{}

/// The commits of the processes are a serial run on one copy, each transaction once, and the ends in the answers to clients are true.
pub fn clusters_are_serial()
    ensures { ClustersAreSerial }
{}

/// In the order in which the processes made them, the commits come in time: what is read of a record that is also changed is what the last commit
/// before left there, in whatever view; and one that was answered, before another was begun, is before it.
pub fn clusters_come_in_time()
    ensures { ClustersComeInTime }
{}

/// Each process that runs is the run of a node, from what its log had as it started, over what has come to it since.
pub fn processes_are_nodes()
    ensures { ProcessesAreNodes }
{}

/// The run of a node that has not ended is what happens to its process if it starts and the datagrams of the run come: its log, its
/// site, what it hands over and what it commits.
pub fn runs_happen()
    ensures { RunsHappen }
{}

/// Each reply of a process goes to the port of a call that it answers: one of that transaction and number, which came since the process
/// started.
pub fn replies_answer_calls()
    ensures { RepliesAnswerCalls }
{}

/// A process that no longer runs, with a log that folds to the durable part of its site after the first so many of the datagrams that
/// came, was killed after those.
pub fn runs_end()
    ensures { RunsEnd }
{}

/// Whatever happens to others, a process is where its own happenings bring it, and what they hand over is handed over.
pub fn processes_are_apart()
    ensures { ProcessesAreApart }
{}

/// What a process hands over is a message to a site, or a reply to the port of a call that it answers.
pub fn handed_replies_answer()
    ensures { HandedRepliesAnswer }
{}

/// A process whose log folds to the durable part of its site after the last turn, of which so many datagrams were handed over, was killed
/// within that turn.
pub fn runs_break()
    ensures { RunsBreak }
{}

/// What happened to several processes, in the order of its moments, may happen, if what happened to each process may, whatever the
/// network brings, and each message came after it was handed over.
pub fn processes_make_clusters()
    ensures { ProcessesMakeClusters }
{}

/// What happened to a process over several lives may happen, whatever the network brings, if each life is one that has an end.
pub fn lives_follow()
    ensures { LivesFollow }
{}
