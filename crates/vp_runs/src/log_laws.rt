//! The laws of logs, as the contracts of functions that do nothing.

ghost use Rattle.vp_runs.specs.LogLaws.{LogsKeepPlaces, LogsAreOfNodes};

/// What a schedule leaves in the log of a site folds to the durable part of the site, whether it is up or down.
pub fn logs_are_kept()
    ensures { LogsKeepPlaces }
{}

/// Over a catalogue in the grammar and with calls in it, each site of each schedule is a node: its log is what the node has left, life
/// after life, and if it is up it is in the node's state.
pub fn logs_are_of_nodes()
    ensures { LogsAreOfNodes }
{}
