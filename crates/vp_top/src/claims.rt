//! What follows from the contract of `run`, over any kind of disk, as the contracts of functions that do nothing. Each is about a run
//! whose sink's count of failures doesn't rise, and, if the command reads an input, whose source says what its bytes are and has a count
//! that doesn't rise either. Memory may run out in each.

ghost use Rattle.vp_top.specs.Complete.{AnswersArePrinted, HistoriesAreChecked, LimitsAreTold, LogsAreAudited, LogsAreTold, LongInputsAreRefused, MalformedInputsAreRefused, MissingSitesAreRefused, NodesEndByTheirLogs, OtherWordsAreRefused, ProceduresAreRun, RecordingsAreMerged, RunsAreCounted, SchedulesAreGenerated, SchedulesAreReplayed, SessionsAreAnswered, SignalsAreSent};

use crate::command_claims::{answers_are_told, signals_are_done};
use vp_outside::Disk;

/// Whoever runs `replay` on the text of a schedule within the limits gets its trace and its history.
pub fn schedules_are_replayed<D: Disk>()
    ensures { SchedulesAreReplayed D.state }
{}

/// Whoever runs `logs` on the text of a schedule within the limits gets a line for the log of each site.
pub fn logs_are_told<D: Disk>()
    ensures { LogsAreTold D.state }
{}

/// Whoever runs `check` on lines that a history ends gets the verdict on it.
pub fn histories_are_checked<D: Disk>()
    ensures { HistoriesAreChecked D.state }
{}

/// Whoever runs `generate` with a seed and a count whose schedule stays within the limits gets that schedule's text.
pub fn schedules_are_generated<D: Disk>()
    ensures { SchedulesAreGenerated D.state }
{}

/// Whoever runs `soak` with a seed and a count whose schedule stays within the limits gets the counts of its run.
pub fn runs_are_counted<D: Disk>()
    ensures { RunsAreCounted D.state }
{}

/// Whoever runs `client` at a site of the catalogue, if no call of the link fails, gets the first answer among the datagrams that the
/// link had left, as many as are waited for.
pub fn answers_are_printed<D: Disk>()
    ensures { AnswersArePrinted D.state }
{
    answers_are_told();
}

/// Whoever runs `tick`, `probe` or `stop` at a site of the catalogue gets the status 0 and no text, if no call of the link fails.
pub fn signals_are_sent<D: Disk>()
    ensures { SignalsAreSent D.state }
{
    signals_are_done();
}

/// Whoever runs `node` at a site of the catalogue, if no call but sends fails, gets the end that its log decides.
pub fn nodes_end_by_their_logs<D: Disk>()
    ensures { NodesEndByTheirLogs D.state }
{}

/// Whoever runs `audit` on logs of sites of the catalogue, if no call of the disk fails, gets the report on what the batches of the logs
/// make, or the first damaged log; at a site that the catalogue lacks, the usage line.
pub fn logs_are_audited<D: Disk>()
    ensures { LogsAreAudited D.state }
{}

/// Whoever runs `merge` on recordings of nodes gets the text of a schedule that does all that they ask, gives what they say and reaches no
/// limit; or the turn that ends it, but only if no schedule does that; or the limit that the next event would exceed.
pub fn recordings_are_merged<D: Disk>()
    ensures { RecordingsAreMerged D.state }
{}

/// Whoever runs `proc` on a procedure at a site of its catalogue gets the line of its end: its result, or why it has none. At a site that
/// the catalogue lacks it is the usage line.
pub fn procedures_are_run<D: Disk>()
    ensures { ProceduresAreRun D.state }
{}

/// Whoever runs `gateway` gets, whatever ends it, the answers to the lines before that, and the line of the end, or a beginning of these if
/// the sink fails or memory runs out. On a session of no more bytes than an input has, if the source doesn't fail, these are the answers to
/// all lines, or the fault of the head, unless the sink, the link or memory fails.
pub fn sessions_are_answered<D: Disk>()
    ensures { SessionsAreAnswered D.state }
{}

/// Whoever gives words that are no command gets the usage line.
pub fn other_words_are_refused<D: Disk>()
    ensures { OtherWordsAreRefused D.state }
{}

/// Whoever runs a command on an input of more than 16,777,216 bytes gets this limit.
pub fn long_inputs_are_refused<D: Disk>()
    ensures { LongInputsAreRefused D.state }
{}

/// Whoever runs a command on an input that is no text of the command's (a schedule, lines that a history ends, recordings, a catalogue)
/// gets the one fault of the input: its place, the line that repeats a name or a port, or the limit that the line exceeds.
pub fn malformed_inputs_are_refused<D: Disk>()
    ensures { MalformedInputsAreRefused D.state }
{}

/// Whoever runs a command at a site that the catalogue lacks gets the usage line.
pub fn missing_sites_are_refused<D: Disk>()
    ensures { MissingSitesAreRefused D.state }
{}

/// Whoever runs `replay`, `logs`, `generate` or `soak` on a schedule that reaches a limit gets the limit: after the trace of the steps
/// before it for `replay`, after the events before it for `generate`, and alone for the others.
pub fn limits_are_told<D: Disk>()
    ensures { LimitsAreTold D.state }
{}
