//! What leaves a node: the lines of a recording, and datagrams.

ghost use Rattle.std.specs.Prelude.{◌≡◌, ◌≤◌, IfOk, IsTrue, OnOk, OnErr};
ghost use Rattle.std.specs.Io.KnownBytes.{Appends};
ghost use Rattle.std.specs.List.{concat};
ghost use Rattle.vp_outside.specs.Links.{HandsNow, StaysBound, GivesNone};
ghost use Rattle.vp_outside.specs.Output.{AppendsPrefix, HasOutCause};
ghost use Rattle.vp_serving.specs.Telling.{HandsPrefix, Tells};

use crate::end::End;
use vp_base::{NoMemory, Seq};
use vp_node::{Lines, Turned};
use vp_outside::{Datagram, Link, OutFault, Sink, write_all};

/// Prints what a turn recorded, and then hands its datagrams over. After a fault of the sink none was handed over.
pub fn tell<L: Link, K: Sink>(link: &mut L, sink: &mut K, turned: Turned) -> Result<(), End>
    requires bound { IsTrue (L.state link.old).bound }
    ensures tells { Tells (concat turned.lines) turned.datagrams (L.state link.old) (L.state link.new)
        (K.state sink.old) (K.state sink.new) result }
    ensures stays { StaysBound (L.state link.old) (L.state link.new) }
    ensures gives_none { GivesNone (L.state link.old) (L.state link.new) }
    ensures same_faults { (L.state link.new).faults ≡ (L.state link.old).faults }
    ensures later { (K.state sink.old).faults ≤ (K.state sink.new).faults }
{
    print_lines(sink, &turned.lines)?;
    hand_over(link, turned.datagrams.as_slice())?;
    Ok(())
}

/// Prints the lines in one piece.
fn print_lines<K: Sink>(sink: &mut K, lines: &Lines) -> Result<(), OutFault>
    ensures ok { OnOk result (Appends (K.state sink.old).held (K.state sink.new).held (concat lines.now)) }
    ensures err { OnErr result
        (AppendsPrefix (K.state sink.old).held (K.state sink.new).held (concat lines.now)) }
    ensures cause { HasOutCause (K.state sink.old).faults (K.state sink.new).faults result }
{
    let text = joined(lines)?;
    write_all(sink, text.as_slice())
}

/// Joins the lines to one text.
fn joined(lines: &Lines) -> Result<Seq<u8>, NoMemory>
    ensures { IfOk result (λ text. text ≡ concat lines.now) }
{
    let mut text = Vec::new(lines.allocator());
    for line in lines.as_slice() {
        text.extend_from_slice(line.as_slice())?;
    }
    Ok(Seq::from_vec(text))
}

/// Sends the datagrams, one after the other. One whose sending fails is lost.
fn hand_over<L: Link>(link: &mut L, datagrams: &[Datagram]) -> Result<(), NoMemory>
    requires bound { IsTrue (L.state link.old).bound }
    ensures ok { OnOk result (HandsNow (L.state link.old) (L.state link.new) datagrams.now) }
    ensures err { OnErr result (HandsPrefix (L.state link.old) (L.state link.new) datagrams.now) }
    ensures stays { StaysBound (L.state link.old) (L.state link.new) }
    ensures gives_none { GivesNone (L.state link.old) (L.state link.new) }
    ensures same_faults { (L.state link.new).faults ≡ (L.state link.old).faults }
{
    for datagram in datagrams {
        if let Err(OutFault::NoMemory) = link.send(datagram.port, &datagram.bytes) {
            return Err(NoMemory);
        }
    }
    Ok(())
}
