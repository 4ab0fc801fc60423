//! The laws of runs, as the contracts of functions that do nothing.

ghost use Rattle.vp_runs.specs.Laws.{RunsGoOn, CheckpointsFold, StepsFold, RunsKeepTheDurablePart, TurnsAreShaped, RunsAreShaped, MessagesArrive, CallsArrive, RepliesArrive};

/// One more datagram is one more turn of the run.
pub fn runs_go_on()
    ensures { RunsGoOn }
{}

/// The log of a node folds to the durable part of its site, after each turn of each run: what a turn appends takes the log's durable
/// part to that of the site, and a checkpoint of it replaces all batches before.
pub fn logs_fold()
    ensures checkpoints { CheckpointsFold }
    ensures steps { StepsFold }
    ensures runs { RunsKeepTheDurablePart }
{}

/// Over a catalogue and batches of the right form, whatever comes, the site of each run has its form, its batches can be appended, and
/// all that it hands over is frames.
pub fn runs_are_shaped()
    ensures turns { TurnsAreShaped }
    ensures runs { RunsAreShaped }
{}

/// A message that one node hands over for another is read there as that message; so are the call of a client at a node, and the reply
/// of a node at a client.
pub fn frames_arrive()
    ensures messages { MessagesArrive }
    ensures calls { CallsArrive }
    ensures replies { RepliesArrive }
{}
