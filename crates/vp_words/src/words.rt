//! The words of the command line, as `clap` reads them.

ghost use Rattle.std.specs.Prelude.{◌≡◌, ◌≤◌, IfOk, IfSome, Some, None, codes, false, map, option_and_then, option_map, if◌then◌else◌};
ghost use Rattle.std.specs.List.{list_all};
ghost use Rattle.std.specs.Str.{is_utf8};
ghost use Rattle.clap.specs.Words.{app_of, found_of, rows_of, subcommand_rows_of};
ghost use Rattle.clap.specs.declared.builder.command.Command.TheViews.{out-Command};
ghost use Rattle.vp_text.specs.Reading.{Reads, number_at, whole};
ghost use Rattle.vp_words.specs.Commands.{IsAllowed, command_of, number, pairs, site};
ghost use Rattle.vp_words.specs.Parsed.{gateway_command, audit_app, audit_command, bare_app, client_command, client_operands, seed_and_count, gateway_operands, has_hyphen, command_meant, node_operands, operand_app, proc_command, program_app, node_command, signal_command, with_command};

use clap::error::ErrorKind;
use clap::{Arg, ArgMatches};
use std::alloc::{AllocError, Global};
use vp_base::{Call, LAST_SITE, NameFault, NoMemory, Seq, SiteId, Word};
use vp_schedule::read_call;
use vp_text::{Cursor, Unexpected};

/// The highest seed.
const MOST_SEED: u64 = 2_147_483_647;

/// How many events may be drawn.
const MOST_COUNT: u64 = 2_400;

/// Sites with the names of their logs, ascending by site.
pub type Logs = Seq<(SiteId, Word)>;

/// What the program is asked to do.
#[derive(Drop)]
pub enum Command {
    /// Replays a schedule.
    Replay,
    /// Checks a history.
    Check,
    /// Runs the node of the site on the log; it stops after at most `turns` datagrams.
    Node {
        site: SiteId,
        log: Word,
        turns: u64,
    },
    /// Sends the call to the node of the site, from the client's own port, and waits for the answer, for at most `turns` datagrams.
    Client {
        port: u16,
        turns: u64,
        site: SiteId,
        call: Call,
    },
    /// Sends the signal to the node of the site.
    Signal {
        site: SiteId,
        signal: Signal,
    },
    /// Draws a schedule. The seed is at most 2147483647, and the count of events at most 2400.
    Generate {
        seed: u32,
        count: u32,
    },
    /// Draws a schedule as `Generate` does, plays it, and counts what happens.
    Soak {
        seed: u32,
        count: u32,
    },
    /// Replays a schedule, and prints what it leaves in the log of each site.
    Logs,
    /// Reports what the sites hold of each record, as their logs have it.
    Audit {
        logs: Logs,
    },
    /// Answers the calls of a session line by line, from the gateway's own port, each by what the node of the site answers among so many
    /// datagrams at most.
    Gateway {
        port: u16,
        turns: u64,
        site: SiteId,
    },
    /// Puts the recordings of nodes together to one schedule.
    Merge,
    /// Runs a procedure as one transaction at the node of the site, from the client's own port. Each answer is waited for among so many
    /// datagrams at most.
    Proc {
        port: u16,
        turns: u64,
        site: SiteId,
    },
}

/// What a node is ordered to do.
#[derive(Clone, Copy, Debug, PartialEq, Eq)]
pub enum Signal {
    /// Time has passed: calls that wait are late.
    Tick,
    /// The site probes every other site of the catalogue, or invites them to a new view where the sites heard since its last probes
    /// aren't the members of its view.
    Probe,
    /// The node stops.
    Stop,
}

impl Command {
    /// The command that the words ask for: its name and its operands, with or without one `--` among them; `None` where they ask
    /// for none.
    ///
    /// Whatever `clap` returns, other than matches or want of memory, makes the words no command. So does a call for help.
    pub fn of(alloc: Global, words: &[Word]) -> Result<Option<Command>, NoMemory>
        ensures command { IfOk result (λ command. command ≡ command_of words.now) }
        ensures allowed { IfOk result (λ command. IfSome command IsAllowed) }
    {
        let Some(texts) = texts_of(alloc, words)? else {
            return Ok(None);
        };
        if has_hyphen(texts.as_slice()) {
            return Ok(None);
        }
        match program(alloc)?.try_get_matches_from(texts.as_slice()) {
            Ok(matches) => command_meant(alloc, &matches),
            Err(error) if error.kind() == ErrorKind::OutOfMemory => Err(NoMemory),
            Err(_) => Ok(None),
        }
    }
}

/// The words as text, or `None` where one is not UTF-8.
fn texts_of(alloc: Global, words: &[Word]) -> Result<Option<Vec<&str>>, NoMemory>
    ensures { IfOk result (λ found. option_map (λ texts. map (λ text. text.now) texts.items) found
        ≡ (if list_all is_utf8 words.now then Some words.now else None)) }
{
    let mut texts = Vec::new(alloc);
    for word in words {
        let Ok(text) = str::from_utf8(word.as_slice()) else {
            return Ok(None);
        };
        texts.push(text)?;
    }
    Ok(Some(texts))
}

/// Whether there is a word `-` before the first `--`. `clap` would take it for an operand.
fn has_hyphen(texts: &[&str]) -> bool
    ensures { result ≡ has_hyphen (map (λ text. text.now) texts.now) }
{
    for text in texts {
        if *text == "--" {
            return false;
        }
        if *text == "-" {
            return true;
        }
    }
    false
}

/// The program's commands, for `clap`.
fn program<'a>(alloc: Global) -> Result<clap::Command<'a>, AllocError>
    ensures { IfOk result (λ c. app_of c ≡ program_app) }
{
    let program = with_command(alloc, bare(alloc), "replay", &[])?;
    let program = with_command(alloc, program, "check", &[])?;
    let program = with_command(alloc, program, "node", &["SITE", "LOG", "TURNS"])?;
    let program = with_command(alloc, program, "client", &["PORT", "TURNS", "SITE", "CALL"])?;
    let program = with_command(alloc, program, "tick", &["SITE"])?;
    let program = with_command(alloc, program, "probe", &["SITE"])?;
    let program = with_command(alloc, program, "stop", &["SITE"])?;
    let program = with_command(alloc, program, "generate", &["SEED", "COUNT"])?;
    let program = with_command(alloc, program, "soak", &["SEED", "COUNT"])?;
    let program = with_command(alloc, program, "logs", &[])?;
    let program = program.subcommand(auditing(alloc)?)?;
    let program = with_command(alloc, program, "gateway", &["PORT", "TURNS", "SITE"])?;
    let program = with_command(alloc, program, "merge", &[])?;
    with_command(alloc, program, "proc", &["PORT", "TURNS", "SITE"])
}

/// The program without its commands. It has no options, so none asks for help.
fn bare<'a>(alloc: Global) -> clap::Command<'a>
    ensures { app_of result ≡ bare_app }
{
    clap::Command::new(alloc, "vpdb")
        .no_binary_name(true)
        .disable_help_flag(true)
        .disable_help_subcommand(true)
}

/// Adds a command to the program.
fn with_command<'a>(
    alloc: Global,
    program: clap::Command<'a>,
    name: &'a str,
    operands: &[&'a str],
) -> Result<clap::Command<'a>, AllocError>
    ensures { IfOk result
        (λ c. app_of c ≡
        with_command (app_of program.entry) (operand_app name.entry.now (map (λ id. id.now) operands.now))) }
{
    program.subcommand(taking(alloc, name, operands)?)
}

/// A command whose operands are all required.
fn taking<'a>(
    alloc: Global,
    name: &'a str,
    operands: &[&'a str],
) -> Result<clap::Command<'a>, AllocError>
    ensures app { IfOk result (λ c. app_of c ≡ operand_app name.entry.now (map (λ id. id.now) operands.now)) }
    ensures local { IfOk result (λ c. (out-Command c).has_globals ≡ false) }
{
    let mut command = clap::Command::new(alloc, name);
    for operand in operands {
        command = command.arg(Arg::new(alloc, *operand).required(true))?;
    }
    Ok(command)
}

/// The command of an audit: sites and logs in turn, all of them one operand for `clap`.
fn auditing<'a>(alloc: Global) -> Result<clap::Command<'a>, AllocError>
    ensures app { IfOk result (λ c. app_of c ≡ audit_app) }
    ensures local { IfOk result (λ c. (out-Command c).has_globals ≡ false) }
{
    let pairs = Arg::new(alloc, "PAIRS").required(true).num_args(2..=32);
    clap::Command::new(alloc, "audit").arg(pairs)
}

/// The command that the matches mean.
fn command_meant(alloc: Global, matches: &ArgMatches) -> Result<Option<Command>, NoMemory>
    ensures command { IfOk result
        (λ command. command ≡ option_and_then (λ m. command_meant m.0 m.1) (subcommand_rows_of matches.now)) }
    ensures allowed { IfOk result (λ command. IfSome command IsAllowed) }
{
    let Some((name, matches)) = matches.subcommand() else {
        return Ok(None);
    };
    match name {
        "replay" => Ok(Some(Command::Replay)),
        "check" => Ok(Some(Command::Check)),
        "node" => node_command(alloc, matches),
        "client" => client_command(alloc, matches),
        "tick" => Ok(signal_command(matches, Signal::Tick)),
        "probe" => Ok(signal_command(matches, Signal::Probe)),
        "stop" => Ok(signal_command(matches, Signal::Stop)),
        "generate" => Ok(seed_and_count(matches).map(|(seed, count)| Command::Generate {
            seed,
            count,
        })),
        "soak" => Ok(seed_and_count(matches).map(|(seed, count)| Command::Soak { seed, count })),
        "logs" => Ok(Some(Command::Logs)),
        "audit" => audit_command(alloc, matches),
        "gateway" => Ok(gateway_command(matches)),
        "merge" => Ok(Some(Command::Merge)),
        "proc" => Ok(proc_command(matches)),
        _ => Ok(None),
    }
}

/// The seed and the count of a command that has them.
#[tactic(auto, using(crate::proofs::Texts::first_rows))]
fn seed_and_count(matches: &ArgMatches) -> Option<(u32, u32)>
    ensures numbers { result ≡ seed_and_count (rows_of (found_of matches.now)) }
    ensures ranges { IfSome result (λ d. (d.0 ≤ 2147483647) × (d.1 ≤ 2400)) }
{
    let seed = number(matches.get_str("SEED")?, 0, MOST_SEED)?;
    let count = number(matches.get_str("COUNT")?, 0, MOST_COUNT)?;
    Some((seed as u32, count as u32))
}

/// The command of a node.
fn node_command(alloc: Global, matches: &ArgMatches) -> Result<Option<Command>, NoMemory>
    ensures command { IfOk result (λ command. command ≡ node_command (rows_of (found_of matches.now))) }
    ensures allowed { IfOk result (λ command. IfSome command IsAllowed) }
{
    let Some((site, log, turns)) = node_operands(matches) else {
        return Ok(None);
    };
    let log = word_of(alloc, log)?;
    Ok(Some(Command::Node { site, log, turns }))
}

fn word_of(alloc: Global, text: &str) -> Result<Word, NoMemory>
    ensures { IfOk result (λ word. word ≡ text.now) }
{
    Ok(Word::from_vec(text.as_bytes().to_vec(alloc)?))
}

#[tactic(auto, using(crate::proofs::Texts::first_rows))]
fn node_operands<'a>(matches: &ArgMatches<'a>) -> Option<(SiteId, &'a str, u64)>
    ensures { option_map (λ o. (o.0, o.1.now, o.2)) result ≡ node_operands (rows_of (found_of matches.now)) }
{
    let site = site(matches.get_str("SITE")?)?;
    let log = matches.get_str("LOG")?;
    let turns = number(matches.get_str("TURNS")?, 0, u64::MAX)?;
    Some((site, log, turns))
}

/// The command of a client's call.
fn client_command(alloc: Global, matches: &ArgMatches) -> Result<Option<Command>, NoMemory>
    ensures command { IfOk result (λ command. command ≡ client_command (rows_of (found_of matches.now))) }
    ensures allowed { IfOk result (λ command. IfSome command IsAllowed) }
{
    let Some(operands) = client_operands(matches) else {
        return Ok(None);
    };
    match read_call(alloc, operands.3.as_bytes()) {
        Ok(call) => Ok(Some(Command::Client {
            port: operands.0,
            turns: operands.1,
            site: operands.2,
            call,
        })),
        Err(NameFault::NoMemory) => Err(NoMemory),
        Err(NameFault::BadName { .. }) => Ok(None),
    }
}

#[tactic(auto, using(crate::proofs::Texts::first_rows))]
fn client_operands<'a>(matches: &ArgMatches<'a>) -> Option<(u16, u64, SiteId, &'a str)>
    ensures { option_map (λ o. (o.0, o.1, o.2, o.3.now)) result ≡
        client_operands (rows_of (found_of matches.now)) }
{
    let port = number(matches.get_str("PORT")?, 1, u64::from(u16::MAX))?;
    let turns = number(matches.get_str("TURNS")?, 0, u64::MAX)?;
    let site = site(matches.get_str("SITE")?)?;
    let call = matches.get_str("CALL")?;
    Some((port as u16, turns, site, call))
}

/// The command of a signal.
#[tactic(auto, using(crate::proofs::Texts::first_rows))]
fn signal_command(matches: &ArgMatches, signal: Signal) -> Option<Command>
    ensures command { result ≡ signal_command signal (rows_of (found_of matches.now)) }
    ensures allowed { IfSome result IsAllowed }
{
    let site = site(matches.get_str("SITE")?)?;
    Some(Command::Signal { site, signal })
}

/// The command of an audit.
fn audit_command(alloc: Global, matches: &ArgMatches) -> Result<Option<Command>, NoMemory>
    ensures command { IfOk result (λ command. command ≡ audit_command (rows_of (found_of matches.now))) }
    ensures allowed { IfOk result (λ command. IfSome command IsAllowed) }
{
    let Some(words) = matches.get_strs("PAIRS") else {
        return Ok(None);
    };
    let Some(logs) = pairs(alloc, words)? else {
        return Ok(None);
    };
    Ok(Some(Command::Audit { logs }))
}

/// The command of a gateway.
fn gateway_command(matches: &ArgMatches) -> Option<Command>
    ensures command { result ≡ gateway_command (rows_of (found_of matches.now)) }
    ensures allowed { IfSome result IsAllowed }
{
    let (port, turns, site) = gateway_operands(matches)?;
    Some(Command::Gateway { port, turns, site })
}

/// The command of a procedure, whose operands are those of a gateway.
fn proc_command(matches: &ArgMatches) -> Option<Command>
    ensures command { result ≡ proc_command (rows_of (found_of matches.now)) }
    ensures allowed { IfSome result IsAllowed }
{
    let (port, turns, site) = gateway_operands(matches)?;
    Some(Command::Proc { port, turns, site })
}

#[tactic(auto, using(crate::proofs::Texts::first_rows))]
fn gateway_operands(matches: &ArgMatches) -> Option<(u16, u64, SiteId)>
    ensures { result ≡ gateway_operands (rows_of (found_of matches.now)) }
{
    let own = number(matches.get_str("PORT")?, 1, u64::from(u16::MAX))?;
    let turns = number(matches.get_str("TURNS")?, 0, u64::MAX)?;
    let site = site(matches.get_str("SITE")?)?;
    Some((own as u16, turns, site))
}

/// The sites with their logs; `None` unless the words are such pairs, and each site is above the one before.
fn pairs(alloc: Global, words: &[&str]) -> Result<Option<Logs>, NoMemory>
    ensures { IfOk result (λ found. found ≡ pairs 0 (map (λ word. word.now) words.now)) }
{
    let mut logs = Logs::new(alloc);
    let mut last = 0;
    let mut named: Option<SiteId> = None;
    for word in words {
        if let Some(site) = named {
            logs.push((site, word_of(alloc, word)?))?;
            last = site.get();
            named = None;
        } else {
            let Some(site) = site(word) else {
                return Ok(None);
            };
            if site.get() <= last {
                return Ok(None);
            }
            named = Some(site);
        }
    }
    Ok(if named.is_none() { Some(logs) } else { None })
}

/// The site whose number the whole text is.
fn site(text: &str) -> Option<SiteId>
    ensures { result ≡ site text.now }
{
    let number = number(text, 1, u64::from(LAST_SITE))?;
    Some(SiteId::of(number as u8))
}

/// The number of the range that the whole text is, in decimal without leading zeros.
fn number(text: &str, least: u64, most: u64) -> Option<u64>
    requires { least ≤ most }
    ensures number { result ≡ number least most text.now }
    ensures range { IfSome result (λ n. (least ≤ n) × (n ≤ most)) }
{
    let mut cursor = Cursor::new(text.as_bytes());
    whole_number(&mut cursor, least, most).ok()
}

fn whole_number(cursor: &mut Cursor, least: u64, most: u64) -> Result<u64, Unexpected>
    ensures read { Reads (λ n. n) (λ e. e.left) result cursor.new (whole (number_at least most) cursor.old) }
    ensures range { IfOk result (λ n. (least ≤ n) × (n ≤ most)) }
{
    let number = cursor.number(least, most)?;
    cursor.end()?;
    Ok(number)
}
