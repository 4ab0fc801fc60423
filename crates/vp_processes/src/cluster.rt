//! A cluster whose nodes and clients are processes of one program.

use crate::examples::{RECORDS, RUNS};
use crate::ports::{LINK_FAULT, TRIES, are_free, free_port, free_ports};
use crate::program::{Program, own};
use std::io::Read;
use std::process::Child;
use std::{fs, io};

/// The ports of the sites, and then that of clients, unless another program has one of them.
const PORTS: [u16; 4] = [7001, 7002, 7003, 7100];

/// The sites, the logs of their nodes, and the files to which these write their statuses.
const SITES: [(&str, &str, &str); 3] = [
    ("1", "cluster1", "cluster1.status"),
    ("2", "cluster2", "cluster2.status"),
    ("3", "cluster3", "cluster3.status"),
];

/// The status of a process whose disk failed.
const DISK_FAULT: u8 = 7;

/// The file to which every other process writes its status.
const SAID: &str = "cluster.status";

/// The files of the logs.
const LOGS: [&str; 6] = [
    "cluster1.0",
    "cluster1.1",
    "cluster2.0",
    "cluster2.1",
    "cluster3.0",
    "cluster3.1",
];

/// Sites and calls at them, one after the other, and the answer to each.
const CALLS: [(&str, &str, &str); 5] = [
    ("1", "begin", "begun 1.1.1 0@0\n"),
    ("1", "1.1.1 1 write x 11", "written 1.1.1 1\n"),
    ("1", "1.1.1 2 commit", "committed 1.1.1 2\n"),
    ("2", "begin", "begun 2.1.1 0@0\n"),
    ("2", "2.1.1 1 read x", "value 2.1.1 1 11\n"),
];

/// What `check` says of all that was committed: by the calls, and by the procedures of the examples.
const SERIAL: &[u8] = b"serial 7\n\
x 11\nnorth 20\nsouth 170\ncount 2\nseats 0\nmine 1\ntheirs 0\n";

/// The catalogue of three sites with a copy of each record, at these ports.
fn three_sites(rt: HostRuntime, ports: &[u16; 4]) -> io::Result<String> {
    let [one, two, three, _] = ports;
    Ok(format!(in rt.alloc();
        "site 1 {one}\nsite 2 {two}\nsite 3 {three}\nrecord x 10 1:1 2:1 3:1\n{RECORDS}"
    )?)
}

/// Ends nodes that get no stop.
fn kill(nodes: &mut [Child]) {
    for node in nodes.iter_mut() {
        let _ = node.kill();
        let _ = node.wait();
    }
}

/// Whether the next line that a node prints is this one.
fn prints(node: &mut Child, line: &[u8; 8]) -> bool {
    let mut next = [0; 8];
    match &mut node.stdout {
        Some(stdout) => stdout.read_exact(&mut next).is_ok() && next == *line,
        None => false,
    }
}

/// Reads what a node prints until it ends.
fn rest(rt: HostRuntime, node: &mut Child) -> io::Result<Vec<u8>> {
    let mut rest = Vec::new(rt.alloc());
    if let Some(stdout) = &mut node.stdout {
        stdout.read_to_end(&mut rest)?;
    }
    Ok(rest)
}

/// A cluster whose nodes and clients are processes of this program.
pub struct Cluster {
    program: Program,
    /// The text of the catalogue, which each process reads.
    catalogue: String,
    /// The clients' port.
    port: u16,
    /// The recordings of the nodes that were stopped, each after its site.
    recordings: String,
}

impl Drop for Cluster {
    fn drop(self) {
        let Cluster {
            program: _,
            catalogue: _,
            port: _,
            recordings: _,
        } = self;
    }
}

impl Cluster {
    fn new(program: Program, ports: &[u16; 4]) -> io::Result<Cluster> {
        let catalogue = three_sites(program.rt, ports)?;
        Ok(Cluster {
            program,
            catalogue,
            port: ports[3],
            recordings: String::new(program.rt.alloc()),
        })
    }

    /// Starts a process with these words.
    fn start(&self, said: &str, words: &[&str]) -> io::Result<Child> {
        self.program.start(said, words, &self.catalogue)
    }

    /// Runs a process with these words: its status, and what it prints.
    fn run(&self, words: &[&str]) -> io::Result<(Option<u8>, Vec<u8>)> {
        self.run_on(words, &self.catalogue)
    }

    /// The same with another input.
    fn run_on(&self, words: &[&str], input: &str) -> io::Result<(Option<u8>, Vec<u8>)> {
        self.program
            .end(SAID, self.program.start(SAID, words, input)?)
    }

    /// Runs a client of a call at a site: its status, and what it prints.
    fn client(&self, port: u16, site: &str, call: &str) -> io::Result<(Option<u8>, Vec<u8>)> {
        let port = format!(in self.program.rt.alloc(); "{port}")?;
        self.run(&["client", &port, "16", site, call])
    }

    /// Whether a client's call at a site gets this answer. If the clients' port is taken, it has another one.
    fn answers(&self, site: &str, call: &str, answer: &str) -> io::Result<bool> {
        let mut port = self.port;
        for _ in 0..TRIES {
            let (status, printed) = self.client(port, site, call)?;
            if status != Some(LINK_FAULT) {
                return Ok(status == Some(0) && own(&printed) == answer.as_bytes());
            }
            port = free_port(self.program.rt)?;
        }
        Ok(false)
    }

    /// Starts the node of a site, which must print this line first. Its port is bound before that.
    fn node(&self, site: &(&str, &str, &str), line: &[u8; 8]) -> io::Result<Child> {
        let (number, log, said) = site;
        let mut node = self.start(said, &["node", number, log, "1000"])?;
        if prints(&mut node, line) {
            return Ok(node);
        }
        node.wait()?;
        match self.program.said(said)? {
            Some(LINK_FAULT) => Err(io::Error::from(io::ErrorKind::AddrInUse)),
            _ => Err(io::Error::from(io::ErrorKind::Other)),
        }
    }

    /// Starts a node for each site on an empty log. If one can't be started, those before it are ended.
    fn nodes(&self) -> io::Result<Vec<Child>> {
        self.remove_logs();
        let mut nodes = Vec::new(self.program.rt.alloc());
        match self.start_nodes(&mut nodes) {
            Ok(()) => Ok(nodes),
            Err(fault) => {
                kill(&mut nodes);
                Err(fault)
            }
        }
    }

    fn start_nodes(&self, nodes: &mut Vec<Child>) -> io::Result<()> {
        for site in &SITES {
            nodes.push(self.node(site, b"start 1\n")?)?;
        }
        Ok(())
    }

    /// Sends the node of a site a stop, and says whether that could be sent.
    fn tells(&self, site: &str) -> io::Result<bool> {
        let (status, printed) = self.run(&["stop", site])?;
        Ok(status == Some(0) && own(&printed).is_empty())
    }

    /// What a node prints after its first line; none if it doesn't print an end, or doesn't end well.
    fn last_lines(&self, said: &str, node: &mut Child) -> io::Result<Option<Vec<u8>>> {
        let rest = rest(self.program.rt, node)?;
        node.wait()?;
        let ends_well = self.program.said(said)? == Some(0) && own(&rest).ends_with(b"\nend\n");
        Ok(if ends_well { Some(rest) } else { None })
    }

    /// Keeps the recording of a node in its first life, without the first line.
    fn keep(&mut self, site: &str, lines: &[u8]) -> io::Result<()> {
        let Ok(lines) = str::from_utf8(own(lines)) else {
            return Err(io::Error::from(io::ErrorKind::InvalidData));
        };
        let block = format!(in self.program.rt.alloc(); "node {site}\nstart 1\n{lines}")?;
        Ok(self.recordings.push_str(&block)?)
    }

    /// Makes the calls, and returns the site and the call of the first that isn't answered as it should be.
    pub fn first_unanswered(&self) -> io::Result<Option<(&'static str, &'static str)>> {
        for (site, call, answer) in &CALLS {
            if !self.answers(site, call, answer)? {
                return Ok(Some((site, call)));
            }
        }
        Ok(None)
    }

    /// Runs a procedure at a site: its status, and what it prints. It is run again where a lock of the one before isn't gone yet, and at
    /// another port where the clients' port is taken.
    fn procedure(&self, site: &str, procedure: &str) -> io::Result<(Option<u8>, Vec<u8>)> {
        let alloc = self.program.rt.alloc();
        let input = format!(in alloc; "{}{procedure}", self.catalogue)?;
        let mut port = self.port;
        for _ in 0..TRIES {
            let own_port = format!(in alloc; "{port}")?;
            let (status, printed) = self.run_on(&["proc", &own_port, "16", site], &input)?;
            if status == Some(LINK_FAULT) {
                port = free_port(self.program.rt)?;
            } else if !own(&printed).starts_with(b"lockheld ") {
                return Ok((status, printed));
            }
        }
        Err(io::Error::from(io::ErrorKind::TimedOut))
    }

    /// Runs the procedures of the examples, one after the other, and returns the place of the first that doesn't end as it should.
    pub fn first_unlike_its_example(&self) -> io::Result<Option<usize>> {
        for (place, (procedure, site, text, status)) in RUNS.iter().enumerate() {
            let (ended, printed) = self.procedure(site, procedure)?;
            if ended != Some(*status) || own(&printed) != text.as_bytes() {
                return Ok(Some(place));
            }
        }
        Ok(None)
    }

    /// Stops the nodes, and returns the site of the first one that gets no stop or, once all got it, doesn't end well.
    /// The recordings of the others are kept.
    pub fn first_lasting(&mut self, nodes: &mut [Child]) -> io::Result<Option<&'static str>> {
        for (site, _, _) in &SITES {
            if !self.tells(site)? {
                return Ok(Some(site));
            }
        }
        let mut nodes = nodes.iter_mut();
        for (site, _, said) in &SITES {
            let Some(node) = nodes.next() else {
                return Ok(Some(site));
            };
            let Some(lines) = self.last_lines(said, node)? else {
                return Ok(Some(site));
            };
            self.keep(site, &lines)?;
        }
        Ok(None)
    }

    /// What goes wrong first when the recordings that were kept are merged, the schedule is replayed, and the history checked.
    pub fn first_unmerged(&self) -> io::Result<Option<&'static str>> {
        let alloc = self.program.rt.alloc();
        let recordings = &self.recordings;
        let input = format!(in alloc; "{}recordings\n{recordings}", self.catalogue)?;
        let (status, printed) = self.run_on(&["merge"], &input)?;
        let Ok(schedule) = str::from_utf8(own(&printed)) else {
            return Ok(Some("the schedule"));
        };
        if status != Some(0) {
            return Ok(Some("the merge"));
        }
        let (status, printed) = self.run_on(&["replay"], schedule)?;
        let Ok(history) = str::from_utf8(own(&printed)) else {
            return Ok(Some("the history"));
        };
        if status != Some(0) {
            return Ok(Some("the replay"));
        }
        let (status, printed) = self.run_on(&["check"], history)?;
        if status != Some(0) || own(&printed) != SERIAL {
            return Ok(Some("the check"));
        }
        Ok(None)
    }

    /// Starts the node of site 1 on its log again. If its port was taken meanwhile, its next life starts at another one.
    fn starts_again(&mut self) -> io::Result<Child> {
        for line in [b"start 2\n", b"start 3\n", b"start 4\n"] {
            match self.node(&SITES[0], line) {
                Err(fault) if fault.kind() == io::ErrorKind::AddrInUse => {
                    let rt = self.program.rt;
                    self.catalogue = three_sites(rt, &free_ports(rt)?)?;
                }
                started => return started,
            }
        }
        Err(io::Error::from(io::ErrorKind::AddrInUse))
    }

    /// Reads the files of the log of site 1.
    fn log(&self) -> io::Result<[Vec<u8>; 2]> {
        let rt = self.program.rt;
        Ok([fs::read(&rt, LOGS[0])?, fs::read(&rt, LOGS[1])?])
    }

    /// Whether another process on the log of site 1, while its node has that, ends with the fault of its disk and writes nothing.
    fn refuses_another(&self) -> io::Result<bool> {
        let [first, second] = self.log()?;
        let (status, printed) = self.run(&["node", "1", "cluster1", "100"])?;
        let [still_first, still_second] = self.log()?;
        let is_kept = first.as_slice() == still_first.as_slice()
            && second.as_slice() == still_second.as_slice();
        Ok(status == Some(DISK_FAULT) && own(&printed) == b"disk fault\n".as_slice() && is_kept)
    }

    /// What goes wrong first when the node of site 1 starts again, alone: another process on its log, a call of a client, for which the
    /// node holds no view, or its end.
    pub fn first_wrong_again(&mut self) -> io::Result<Option<&'static str>> {
        let mut node = self.starts_again()?;
        if !self.refuses_another()? {
            return Ok(Some("another process on the log"));
        }
        if !self.answers("1", "begin", "noview 0@0\n")? {
            return Ok(Some("a call"));
        }
        if !self.tells("1")? || self.last_lines(SITES[0].2, &mut node)?.is_none() {
            return Ok(Some("the end"));
        }
        Ok(None)
    }

    /// Removes the logs that there are.
    pub fn remove_logs(&self) {
        for file in &LOGS {
            let _ = fs::remove_file(&self.program.rt, *file);
        }
    }
}

/// Starts a cluster of three sites, each of whose nodes has printed the line of its first life: at the ports 7001 to 7003, and 7100 for
/// clients, or at free ones if another program has one of these. `by_words` is the test of this program, started again, that does what
/// the words after its name say.
pub fn started(rt: HostRuntime, by_words: &'static str) -> io::Result<(Cluster, Vec<Child>)> {
    let program = Program { rt, by_words };
    let mut ports = if are_free(rt, &PORTS) {
        PORTS
    } else {
        free_ports(rt)?
    };
    for _ in 0..TRIES {
        let cluster = Cluster::new(program, &ports)?;
        match cluster.nodes() {
            Ok(nodes) => return Ok((cluster, nodes)),
            Err(fault) if fault.kind() == io::ErrorKind::AddrInUse => ports = free_ports(rt)?,
            Err(fault) => return Err(fault),
        }
    }
    Err(io::Error::from(io::ErrorKind::AddrInUse))
}
