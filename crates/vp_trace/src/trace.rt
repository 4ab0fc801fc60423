//! Printing the lines of a trace.

ghost use Rattle.std.specs.Prelude.{◌≤◌, ◌+◌, ◌<◌, ◌^◌, ◌++◌, ◌∷◌, [], codes, flat_map, length};
ghost use Rattle.vp_text.specs.Printing.{Appends};
ghost use Rattle.std.specs.Fmt.{decimal};
ghost use Rattle.vp_model.specs.Texts.Messages.{message_text};
ghost use Rattle.vp_trace.specs.LentLines.{line_of};
ghost use Rattle.vp_model.specs.Texts.Trace.{commit_line, sent_line, sent_lines, reply_line, told_line, shown_text, line_text};

use crate::answers::print_answer;
use crate::calls::print_event;
use crate::fields::{print_count, print_site, print_txn, print_view, print_word};
use crate::line::LentLine;
use crate::messages::print_message;
use vp_base::{Commit, NoMemory, Reply, Sent, Shown, SiteId};
use vp_catalog::Catalog;
use vp_text::print_number;

fn print_commit(commit: &Commit, out: &mut Vec<u8>) -> Result<(), NoMemory>
    ensures { Appends result out.old.items (commit_line commit.now) out.new.items }
{
    print_txn(out, b" commit ", &commit.txn)?;
    print_view(out, b" ", &commit.view)?;
    out.push(b'\n')?;
    Ok(())
}

fn print_commits(commits: &[Commit], out: &mut Vec<u8>) -> Result<(), NoMemory>
    ensures { Appends result out.old.items (flat_map commit_line commits.now) out.new.items }
{
    for commit in commits {
        print_commit(commit, out)?;
    }
    Ok(())
}

fn print_routed(catalog: &Catalog, sent: &Sent, out: &mut Vec<u8>) -> Result<(), NoMemory>
    ensures { Appends result out.old.items
        (decimal sent.now.from ++ 62 ∷ (decimal sent.now.to ++ 32 ∷ (message_text catalog.now sent.now.message ++ 10 ∷ [])))
        out.new.items }
{
    sent.from.print(out)?;
    out.push(b'>')?;
    sent.to.print(out)?;
    out.push(b' ')?;
    print_message(catalog, &sent.message, out)?;
    out.push(b'\n')?;
    Ok(())
}

fn print_sent(catalog: &Catalog, k: u64, sent: &Sent, out: &mut Vec<u8>) -> Result<(), NoMemory>
    ensures { Appends result out.old.items (sent_line catalog.now k sent.now) out.new.items }
{
    print_word(out, b" sent ")?;
    print_number(out, k)?;
    out.push(b' ')?;
    print_routed(catalog, sent, out)?;
    Ok(())
}

/// Appends the lines of the messages, which are numbered from `first` on.
fn print_messages(
    catalog: &Catalog,
    first: u64,
    messages: &[Sent],
    out: &mut Vec<u8>,
) -> Result<(), NoMemory>
    requires { first + length messages.now < 2 ^ 64 }
    ensures { Appends result out.old.items (sent_lines catalog.now first messages.now) out.new.items }
{
    let mut k = first;
    for sent in messages {
        print_sent(catalog, k, sent, out)?;
        k += 1;
    }
    Ok(())
}

fn print_reply(reply: &Reply, out: &mut Vec<u8>) -> Result<(), NoMemory>
    ensures { Appends result out.old.items (reply_line reply.now) out.new.items }
{
    print_word(out, b" reply ")?;
    print_answer(&reply.answer, out)?;
    out.push(b'\n')?;
    Ok(())
}

fn print_replies(replies: &[Reply], out: &mut Vec<u8>) -> Result<(), NoMemory>
    ensures { Appends result out.old.items (flat_map reply_line replies.now) out.new.items }
{
    for reply in replies {
        print_reply(reply, out)?;
    }
    Ok(())
}

fn print_told(out: &mut Vec<u8>, word: &[u8], number: u32) -> Result<(), NoMemory>
    ensures { Appends result out.old.items (told_line word.now number) out.new.items }
{
    print_word(out, word)?;
    print_count(out, number)?;
    out.push(b'\n')?;
    Ok(())
}

fn print_parted(out: &mut Vec<u8>, from: SiteId, to: SiteId) -> Result<(), NoMemory>
    ensures { Appends result out.old.items (codes " cut " ++ (decimal from ++ 32 ∷ (decimal to ++ 10 ∷ [])))
        out.new.items }
{
    print_site(out, b" cut ", from)?;
    print_site(out, b" ", to)?;
    out.push(b'\n')?;
    Ok(())
}

#[tactic(auto, using(vp_text::proofs::Printing::printing))]
fn print_shown(catalog: &Catalog, shown: &Shown, out: &mut Vec<u8>) -> Result<(), NoMemory>
    ensures { Appends result out.old.items (shown_text catalog.now shown.now) out.new.items }
{
    match shown {
        Shown::Step {
            commits,
            first,
            messages,
            replies,
        } => {
            print_commits(commits.as_slice(), out)?;
            print_messages(catalog, u64::from(*first), messages.as_slice(), out)?;
            print_replies(replies.as_slice(), out)
        }
        Shown::Nothing => Ok(()),
        Shown::NoMessage => print_word(out, b" nomessage\n"),
        Shown::Down { site } => print_told(out, b" down ", u32::from(site.get())),
        Shown::Parted { from, to } => print_parted(out, *from, *to),
        Shown::Up { site } => print_told(out, b" up ", u32::from(site.get())),
        Shown::Life { life } => print_told(out, b" life ", *life),
        Shown::LivesSpent { life } => print_told(out, b" lives spent ", *life),
    }
}

/// Appends the line `number EVENT` and the lines of what the event gave. After an error a beginning of them may have been appended.
pub fn print_line(
    number: u32,
    line: &LentLine,
    catalog: &Catalog,
    out: &mut Vec<u8>,
) -> Result<(), NoMemory>
    ensures { Appends result out.old.items (line_text catalog.now (number, line_of line.now)) out.new.items }
{
    print_count(out, number)?;
    out.push(b' ')?;
    print_event(line.event, out)?;
    out.push(b'\n')?;
    print_shown(catalog, line.shown, out)
}
