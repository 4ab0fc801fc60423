//! What the lines of recordings say so far.

ghost use Rattle.std.specs.Prelude.{◌≡◌, ◌<◌, ◌^◌, ◌-◌, OnOk, IfOk};
ghost use Rattle.vp_recording.specs.Document.{recorded_of};
ghost use Rattle.vp_recording.specs.declared.line.RecordingLine.TheVariants as line;
ghost use Rattle.vp_recording.specs.Drafts.{blank, turn_closed, block_closed, after, Allows, Adds};

use crate::fault::RecordingFault;
use crate::line::RecordingLine;
use crate::recording::{Recording, Recordings, Turn, Turns};
use bytes::Bytes;
use std::alloc::Global;
use vp_base::{NoMemory, SiteId};
use vp_catalog::Catalog;
use vp_heads::Head;
use vp_outside::{Datagram, Datagrams};

/// A catalogue with recordings of its sites' nodes.
#[derive(Drop)]
pub struct RecordingSet {
    pub catalog: Catalog,
    pub recordings: Recordings,
}

/// The same while it is being read.
#[derive(Drop)]
pub struct RecordingDraft {
    pub head: Head,
    /// The blocks that no line is added to any more.
    pub recordings: Recordings,
    /// The site of a line `node` whose `start` has not come yet.
    pub named: Option<SiteId>,
    /// The block at hand, without its last turn where that may have more lines.
    pub block: Option<Recording>,
    /// That turn.
    pub turn: Option<Turn>,
    /// The last life of each site, from site 1 on; 0 before its first one.
    pub lives: [u32; 16],
}

impl RecordingDraft {
    /// What no lines say, which takes no memory.
    pub fn new(alloc: Global) -> RecordingDraft
        ensures { result ≡ blank }
    {
        RecordingDraft {
            head: Head::new(alloc),
            recordings: Recordings::new(alloc),
            named: None,
            block: None,
            turn: None,
            lives: [0; 16],
        }
    }

    /// No line is added to the turn at hand any more.
    fn close_turn(&mut self) -> Result<(), NoMemory>
        ensures { OnOk result (self.new ≡ turn_closed self.old) }
    {
        let turn = self.turn.take();
        if let Some(block) = &mut self.block {
            if let Some(turn) = turn {
                block.turns.push(turn)?;
            }
        }
        Ok(())
    }

    /// No line is added to the block at hand any more.
    fn close_block(&mut self, ended: bool) -> Result<(), NoMemory>
        ensures { OnOk result (self.new ≡ block_closed ended self.old) }
    {
        self.close_turn()?;
        if let Some(mut block) = self.block.take() {
            block.ended = ended;
            self.recordings.push(block)?;
        }
        Ok(())
    }

    /// A datagram that was handed over in the turn at hand.
    fn add_out(&mut self, frame: Bytes) -> Result<(), NoMemory>
        ensures { OnOk result (self.new ≡ after self.old (line.Out frame)) }
    {
        if let Some(turn) = &mut self.turn {
            turn.outs.push(Datagram {
                port: 0,
                bytes: frame,
            })?;
        }
        Ok(())
    }

    fn start(&mut self, alloc: Global, life: u32)
        ensures { self.new ≡ after self.old (line.Start life) }
    {
        if let Some(site) = self.named.take() {
            self.lives[usize::from(site.get()) - 1] = life;
            self.block = Some(Recording {
                site,
                life,
                turns: Turns::new(alloc),
                ended: false,
            });
        }
    }

    /// Adds what the line of this number says.
    pub fn add(
        &mut self,
        alloc: Global,
        line: RecordingLine,
        number: usize,
    ) -> Result<(), RecordingFault>
        requires allowed { Allows self.old line }
        requires room { number < 2 ^ 64 - 1 }
        ensures { Adds self.old line number self.new result }
    {
        match line {
            RecordingLine::Head(line) => self.head.add(line, number)?,
            RecordingLine::Node { site } => {
                if self.lives[usize::from(site.get()) - 1] == u32::MAX {
                    return Err(RecordingFault::BadLine {
                        line: number + 1,
                        at: 1,
                    });
                }
                self.close_block(false)?;
                self.named = Some(site);
            }
            RecordingLine::Start { life } => self.start(alloc, life),
            RecordingLine::In { frame } => {
                self.close_turn()?;
                self.turn = Some(Turn {
                    frame,
                    outs: Datagrams::new(alloc),
                });
            }
            RecordingLine::Out { frame } => self.add_out(frame)?,
            RecordingLine::Bad | RecordingLine::Stray => self.close_turn()?,
            RecordingLine::End | RecordingLine::LinkFault | RecordingLine::DiskFault => {
                self.close_block(true)?
            }
        }
        Ok(())
    }

    /// What the lines say, where no more come.
    pub fn into_recorded(mut self) -> Result<RecordingSet, NoMemory>
        ensures { IfOk result (λ it. it ≡ recorded_of self) }
    {
        self.close_block(false)?;
        Ok(RecordingSet {
            catalog: self.head.catalog,
            recordings: self.recordings,
        })
    }
}
