//! Audits of stopped sites by their logs.

use crate::runs::USAGE;
use crate::words;
use std::alloc::Global;
use std::process::Abort;
use vp_base::Word;
use vp_disks::MemDisk;
use vp_outside::{SureLink, TextSink, TextSource};
use vp_status::Status;
use vp_top::run;

/// Two records at two sites; the second site has more weight of one of them.
const CATALOGUE: &str = "site 1 7001\nsite 2 7002\nrecord x 10 1:1 2:1\nrecord y 5 1:1 2:3\n";

/// Site 1 has accepted a transaction of site 2 that writes x, and is in doubt about it. Its records are of the first version.
const AT_1: &[u8] = b"\x01\0\0\0\0\0\0\0\x05\x01\0\0\0\x01\
    \x01\0\0\0\0\0\0\0\x18\x03\x02\0\0\0\x01\0\0\0\x01\0\0\0\0\0\0\0\0\0\x01\0\x0212\0";

/// Site 2 has accepted a transaction of site 1 that writes x, and is in doubt about it.
const AT_2: &[u8] = b"\x01\0\0\0\0\0\0\0\x05\x01\0\0\0\x01\
    \x01\0\0\0\0\0\0\0\x1b\x09\x01\0\0\0\x01\0\0\0\x01\0\0\0\0\0\0\0\0\0\x01\0\x01\0\x0211\0\0";

/// Site 2 has applied a transaction of site 1 that wrote y, in the view 1@1.
const APPLIED: &[u8] = b"\x01\0\0\0\0\0\0\0\x05\x01\0\0\0\x01\
    \x01\0\0\0\0\0\0\0\x1a\x09\x01\0\0\0\x01\0\0\0\x01\0\0\0\0\0\0\0\x01\x01\x01\x01\x01\0\x016\0\
    \x01\0\0\0\0\0\0\0\x0b\x04\x01\0\0\0\x01\0\0\0\x01\x01\0";

/// Site 1 has a copy of x from a batch of the first version, and one of y, which has no value, from a batch of the second.
const BOTH: &[u8] = b"\x01\0\0\0\0\0\0\0\x0e\x06\0\x0211\0\0\0\0\0\0\0\x01\x01\
    \x01\0\0\0\0\0\0\0\x0d\x0b\x01\0\0\0\0\0\0\0\0\0\x01\x02\0";

/// A batch without a gate after it.
const TORN: &[u8] = b"\x01\0\0\0\0\0\0\0\x05\x01\0\0\0\x01";

/// The words of an audit, and what it prints. The logs of these names are there, but for `missing`.
const AUDITS: [(&str, Status, &str); 14] = [
    (
        "audit 1 missing 2 missing",
        Status::Done,
        "newest x 10 0@0 at 1,2\ncan x yes\nnewest y 5 0@0 at 1,2\ncan y yes\n",
    ),
    (
        "audit 1 missing",
        Status::Done,
        "newest x 10 0@0 at 1\ncan x no 1 of 2\nnewest y 5 0@0 at 1\ncan y no 1 of 4\n",
    ),
    (
        "audit 1 missing 2 at2",
        Status::Done,
        "newest x 10 0@0 at 1\ndoubt x 1.1.1 0@0 at 2\ncan x wait 1.1.1\nnewest y 5 0@0 at 1,2\ncan y yes\n",
    ),
    (
        "audit 2 at2",
        Status::Done,
        "unsettled x\ndoubt x 1.1.1 0@0 at 2\ncan x no 1 of 2\nnewest y 5 0@0 at 2\ncan y yes\n",
    ),
    (
        "audit 1 at1 2 at2",
        Status::Done,
        "unsettled x\ndoubt x 1.1.1 0@0 at 2\ndoubt x 2.1.1 0@0 at 1\ncan x wait 1.1.1\nnewest y 5 0@0 at 1,2\ncan y yes\n",
    ),
    (
        "audit 1 at1 2 applied",
        Status::Done,
        "newest x 10 0@0 at 2\ndoubt x 2.1.1 0@0 at 1\ncan x wait 2.1.1\nnewest y 6 1@1 at 2\ncan y yes\n",
    ),
    (
        "audit 2 applied",
        Status::Done,
        "newest x 10 0@0 at 2\ncan x no 1 of 2\nnewest y 6 1@1 at 2\ncan y yes\n",
    ),
    (
        "audit 1 both 2 missing",
        Status::Done,
        "newest x 11 1@1 at 1\ncan x yes\nabsent y 1@2 at 1\ncan y yes\n",
    ),
    ("audit 1 torn 2 at2", Status::BadLog, "bad log 0 at 0\n"),
    ("audit 1 at1 2 torn", Status::BadLog, "bad log 0 at 0\n"),
    ("audit 1 at1 3 missing", Status::Usage, USAGE),
    ("audit 2 at2 1 at1", Status::Usage, USAGE),
    ("audit 1 at1 2", Status::Usage, USAGE),
    ("audit", Status::Usage, USAGE),
];

/// A disk with the logs, of which the call with this number fails.
fn disk_with(rt: &impl Abort, alloc: Global, failing: u64) -> MemDisk {
    let mut disk = MemDisk::new(alloc, vec![in alloc; failing].expect(rt, "memory"));
    for (name, half) in [
        ("at1", AT_1),
        ("at2", AT_2),
        ("applied", APPLIED),
        ("both", BOTH),
        ("torn", TORN),
    ] {
        let name = Word::from_vec(name.as_bytes().to_vec(alloc).expect(rt, "memory"));
        let half = half.to_vec(alloc).expect(rt, "memory");
        disk.lay(&name, half, Vec::new(alloc)).expect(rt, "memory");
    }
    disk
}

/// Whether the words get this result if the call of the disk with this number fails.
fn audits(rt: &impl Abort, alloc: Global, audit: (&str, Status, &str), failing: u64) -> bool {
    let (line, status, text) = audit;
    let catalogue = CATALOGUE.as_bytes().to_vec(alloc).expect(rt, "memory");
    let mut source = TextSource::new(catalogue, Vec::new(alloc));
    let mut link = SureLink::new(alloc, Vec::new(alloc));
    let mut sink = TextSink::new(alloc, Vec::new(alloc));
    let mut disk = disk_with(rt, alloc, failing);
    let words = words(alloc, line).expect(rt, "memory");
    let end = run(alloc, &words, &mut source, &mut sink, &mut link, &mut disk);
    end == status && sink.bytes() == text.as_bytes()
}

#[test]
fn stopped_sites_are_audited(rt: HostRuntime) {
    for audit in AUDITS {
        assert!(rt; audits(&rt, rt.alloc(), audit, 0), "{}", audit.0);
    }
    // Each log takes four calls: it is attached, its halves are measured, and what the first one has is read.
    for call in 1..9 {
        let fault = ("audit 1 at1 2 at2", Status::DiskFault, "disk fault\n");
        assert!(rt; audits(&rt, rt.alloc(), fault, call), "at {call}");
    }
}
