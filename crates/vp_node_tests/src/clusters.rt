//! Three nodes over links in memory: the test passes on what they hand over.

use std::alloc::{AllocError, Global};
use std::process::Abort;
use vp_base::SiteId;
use vp_commands_tests::{BEGIN, BEGUN, COMMIT, Ended, PORT, Setup, WRITE, datagram};
use vp_outside::Datagram;

const THREE: &[u8] = b"site 1 7001\nsite 2 7002\nsite 3 7003\nrecord x 10 1:1 2:1 3:1\n";

/// The port of site 2.
const SECOND: u16 = 7002;

/// The most rounds of passing on that follow a call.
const ROUNDS: usize = 10;

const WRITTEN: &[u8] = b"\x56\x02\x21\x01\0\x03\x01\0\0\0\x01\0\0\0\x01\0\0\0\x01";

const COMMITTED: &[u8] = b"\x56\x02\x21\x01\0\x04\x01\0\0\0\x01\0\0\0\x01\0\0\0\x02";

/// The call to begin, to site 2, and its answer.
const BEGIN_THERE: &[u8] = b"\x56\x02\x20\0\x02\x01";

const BEGUN_THERE: &[u8] = b"\x56\x02\x21\x02\0\x01\x02\0\0\0\x01\0\0\0\x01\0\0\0\0\0\0\0\0\0";

/// The call to read x in 2.1.1, to site 2, and the value 11.
const READ_THERE: &[u8] = b"\x56\x02\x20\0\x02\x03\x02\0\0\0\x01\0\0\0\x01\0\0\0\x01\x01\x78";

const VALUE: &[u8] = b"\x56\x02\x21\x02\0\x02\x02\0\0\0\x01\0\0\0\x01\0\0\0\x01\0\x02\x31\x31";

/// The log of a site that has voted and got the commit: its life, its vote with the write, and the outcome.
const OF_A_PARTICIPANT: &[u8] = b"\x01\0\0\0\0\0\0\0\x05\x01\0\0\0\x01\
    \x01\0\0\0\0\0\0\0\x1b\x09\x01\0\0\0\x01\0\0\0\x01\0\0\0\0\0\0\0\0\0\x01\0\x01\0\x02\x31\x31\0\
    \x01\0\0\0\0\0\0\0\x0b\x04\x01\0\0\0\x01\0\0\0\x01\x01\0";

/// A site, all that has come to it, and how many of the datagrams that it hands over were passed on.
#[derive(Drop)]
struct Member {
    site: SiteId,
    port: u16,
    arrived: Vec<Datagram>,
    passed: usize,
}

/// A datagram on its way, with the port of its sender.
#[derive(Drop)]
struct OnItsWay {
    to: u16,
    datagram: Datagram,
}

#[derive(Drop)]
struct Cluster {
    alloc: Global,
    members: Vec<Member>,
    /// What clients were answered.
    answers: Vec<Datagram>,
}

fn copied(alloc: Global, datagrams: &[Datagram]) -> Result<Vec<Datagram>, AllocError> {
    let mut copy = Vec::new(alloc);
    for it in datagrams {
        copy.push(datagram(alloc, it.port, &it.bytes)?)?;
    }
    Ok(copy)
}

impl Member {
    /// Runs it from an empty log on, which gives the same each time for what has come so far.
    fn run(&self, rt: &impl Abort, alloc: Global) -> Ended {
        let setup = Setup {
            catalogue: THREE,
            site: self.site,
            ..Setup::alone(b"")
        };
        let datagrams = copied(alloc, &self.arrived).expect(rt, "memory");
        setup.run(alloc, datagrams).expect(rt, "a run")
    }

    /// Adds what it hands over beyond the last time.
    fn hand_over(&mut self, rt: &impl Abort, alloc: Global, handed: &mut Vec<OnItsWay>) {
        let ended = self.run(rt, alloc);
        for it in ended.link.handed().iter().skip(self.passed) {
            let datagram = datagram(alloc, self.port, &it.datagram.bytes).expect(rt, "memory");
            let to = it.datagram.port;
            handed.push(OnItsWay { to, datagram }).expect(rt, "memory");
        }
        self.passed = ended.link.handed().len();
    }
}

impl Cluster {
    fn new(rt: &impl Abort, alloc: Global) -> Cluster {
        let mut members = Vec::new(alloc);
        for (site, port) in [
            (SiteId::of(1), PORT),
            (SiteId::of(2), SECOND),
            (SiteId::of(3), 7003),
        ] {
            let member = Member {
                site,
                port,
                arrived: Vec::new(alloc),
                passed: 0,
            };
            members.push(member).expect(rt, "memory");
        }
        Cluster {
            alloc,
            members,
            answers: Vec::new(alloc),
        }
    }

    /// Delivers what goes to the port of a site to that, and all else to a client.
    fn deliver(&mut self, to: u16, datagram: Datagram) -> Result<(), AllocError> {
        match self.members.iter_mut().find(|member| member.port == to) {
            Some(member) => member.arrived.push(datagram)?,
            None => self.answers.push(datagram)?,
        }
        Ok(())
    }

    /// Passes on what the sites hand over, until they hand over nothing more.
    fn settle(&mut self, rt: &impl Abort) {
        for _ in 0..ROUNDS {
            let mut handed = Vec::new(self.alloc);
            for member in self.members.iter_mut() {
                member.hand_over(rt, self.alloc, &mut handed);
            }
            for it in handed {
                self.deliver(it.to, it.datagram).expect(rt, "memory");
            }
        }
    }

    /// Whether a client's call gets this answer in the end.
    fn answers(&mut self, rt: &impl Abort, port: u16, call: &[u8], answer: &[u8]) -> bool {
        let datagram = datagram(self.alloc, 7100, call).expect(rt, "memory");
        self.deliver(port, datagram).expect(rt, "memory");
        self.settle(rt);
        match self.answers.pop() {
            Some(it) => it.port == port && it.bytes.as_slice() == answer,
            None => false,
        }
    }

    /// The port of a site, but the first, whose log isn't that of a participant.
    fn without_copy(&self, rt: &impl Abort) -> Option<u16> {
        for member in self.members.iter().skip(1) {
            let ended = member.run(rt, self.alloc);
            if ended.disk.half(0) != OF_A_PARTICIPANT {
                return Some(member.port);
            }
        }
        None
    }
}

#[test]
fn a_write_reaches_all_copies(rt: HostRuntime) {
    let mut cluster = Cluster::new(&rt, rt.alloc());
    for (port, call, answer) in [
        (PORT, BEGIN, BEGUN),
        (PORT, WRITE, WRITTEN),
        (PORT, COMMIT, COMMITTED),
        (SECOND, BEGIN_THERE, BEGUN_THERE),
        (SECOND, READ_THERE, VALUE),
    ] {
        assert!(rt; cluster.answers(&rt, port, call, answer), "{call:?}");
    }
    assert_eq!(rt; cluster.without_copy(&rt), None);
}
