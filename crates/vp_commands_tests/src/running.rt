//! Running a node over a link, a disk and a sink in memory.

use crate::datagram;
use std::alloc::{AllocError, Global};
use vp_base::{SiteId, Word, has_site};
use vp_catalog::Catalog;
use vp_disks::MemDisk;
use vp_outside::{Datagram, MemLink, OutFault, TextSink};
use vp_status::Status;
use vp_top::serve_log;

/// Site 1 alone.
const ALONE: &[u8] = b"site 1 7001\nrecord x 10 1:1\n";

/// More turns than a node does that is stopped, or gets nothing more.
const MANY: u64 = 100;

/// Which call of each object fails; no call has number 0.
#[derive(Clone, Copy, Drop)]
pub struct Failing {
    pub link: u64,
    pub disk: u64,
    pub sink: u64,
}

/// No call fails.
pub const NONE: Failing = Failing {
    link: 0,
    disk: 0,
    sink: 0,
};

/// A node before it runs.
#[derive(Clone, Copy, Drop)]
pub struct Setup<'a> {
    pub catalogue: &'a [u8],
    pub site: SiteId,
    /// The halves of its log.
    pub halves: [&'a [u8]; 2],
    /// The most turns that it does.
    pub turns: u64,
    pub failing: Failing,
}

/// What a run leaves.
#[derive(Drop)]
pub struct Ended {
    pub status: Status,
    pub link: MemLink,
    pub disk: MemDisk,
    pub sink: TextSink,
}

impl Setup<'_> {
    /// Site 1 alone, whose log has these bytes in its first half.
    pub fn alone(half: &[u8]) -> Setup<'_> {
        Setup {
            catalogue: ALONE,
            site: SiteId::of(1),
            halves: [half, b""],
            turns: MANY,
            failing: NONE,
        }
    }

    /// Its log on a disk.
    fn disk(&self, alloc: Global, name: &Word) -> Result<MemDisk, OutFault> {
        let [first, second] = self.halves;
        let first = first.to_vec(alloc)?;
        let second = second.to_vec(alloc)?;
        let mut disk = MemDisk::new(alloc, planned(alloc, self.failing.disk)?);
        disk.lay(name, first, second)?;
        Ok(disk)
    }

    /// Runs the node, to which these datagrams come and then none. There is no run if the catalogue is none or has no such site.
    pub fn run(&self, alloc: Global, datagrams: Vec<Datagram>) -> Option<Ended> {
        let catalog = Catalog::read(alloc, self.catalogue).ok()?;
        if !has_site(catalog.sites().as_slice(), self.site) {
            return None;
        }
        let name = Word::from_vec(b"log".to_vec(alloc).ok()?);
        let mut disk = self.disk(alloc, &name).ok()?;
        let mut link = MemLink::new(alloc, datagrams, planned(alloc, self.failing.link).ok()?);
        let mut sink = TextSink::new(alloc, planned(alloc, self.failing.sink).ok()?);
        let status = serve_log(
            &catalog, self.site, &name, &mut link, &mut disk, &mut sink, self.turns,
        );
        Some(Ended {
            status,
            link,
            disk,
            sink,
        })
    }
}

/// The plan by which the call with this number fails.
fn planned(alloc: Global, call: u64) -> Result<Vec<u64>, AllocError> {
    let mut calls = Vec::new(alloc);
    calls.push(call)?;
    Ok(calls)
}

impl Ended {
    /// Whether it ended with this status, and printed this text.
    pub fn is(&self, status: Status, text: &[u8]) -> bool {
        self.status == status && self.sink.bytes() == text
    }
}

/// Datagrams of a client.
pub fn said(alloc: Global, pieces: &[&[u8]]) -> Result<Vec<Datagram>, AllocError> {
    let mut datagrams = Vec::new(alloc);
    for piece in pieces {
        datagrams.push(datagram(alloc, 7100, piece)?)?;
    }
    Ok(datagrams)
}
