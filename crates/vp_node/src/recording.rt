//! The lines of a recording.

ghost use Rattle.std.specs.Prelude.{◌≡◌, ◌++◌, IfOk, OnOk, map};
ghost use Rattle.std.specs.Fmt.{decimal};
ghost use Rattle.hex.specs.Hex.{encode_lower};
ghost use Rattle.vp_runs.specs.Turns.{arrival_line, out_line};
ghost use Rattle.vp_text.specs.Documents.{word_line};

use crate::turned::Lines;
use std::alloc::Global;
use vp_base::{NoMemory, Seq};
use vp_outside::Datagram;
use vp_runs::Arrival;
use vp_text::print_number;

/// Room for the line of a frame of most kinds, in bytes.
const ROOM: usize = 128;

/// Makes a line of the word and the bytes in lower-case hexadecimal.
fn hex_line(alloc: Global, word: &[u8], bytes: &[u8]) -> Result<Seq<u8>, NoMemory>
    ensures { IfOk result (λ line. line ≡ word_line word.now (encode_lower bytes.now)) }
{
    let mut line = Vec::with_capacity(alloc, ROOM)?;
    line.extend_from_slice(word)?;
    line.extend_from_slice(hex::encode(alloc, bytes)?.as_bytes())?;
    line.push(b'\n')?;
    Ok(Seq::from_vec(line))
}

/// Makes a line of the word and the number in decimal.
pub fn number_line(alloc: Global, word: &[u8], number: u64) -> Result<Seq<u8>, NoMemory>
    ensures { IfOk result (λ line. line ≡ word_line word.now (decimal number)) }
{
    let mut line = Vec::new(alloc);
    line.extend_from_slice(word)?;
    print_number(&mut line, number)?;
    line.push(b'\n')?;
    Ok(Seq::from_vec(line))
}

/// Makes the line of a datagram that came, by what it is to the node.
pub fn arrival_line(alloc: Global, bytes: &[u8], what: &Arrival) -> Result<Seq<u8>, NoMemory>
    ensures { IfOk result (λ line. line ≡ arrival_line bytes.now what.now) }
{
    match what {
        Arrival::Bad { at } => number_line(alloc, b"bad ", *at as u64),
        Arrival::Stray => hex_line(alloc, b"stray ", bytes),
        Arrival::Stops | Arrival::Gives { .. } => hex_line(alloc, b"in ", bytes),
    }
}

/// Adds the line of each datagram to the lines.
pub fn out_lines(alloc: Global, datagrams: &[Datagram], lines: &mut Lines) -> Result<(), NoMemory>
    ensures { OnOk result (lines.new ≡ lines.old ++ map out_line datagrams.now) }
{
    for datagram in datagrams {
        lines.push(hex_line(alloc, b"out ", &datagram.bytes)?)?;
    }
    Ok(())
}
