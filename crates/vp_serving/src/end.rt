//! How serving ends.

ghost use Rattle.std.specs.Prelude.{◌≡◌};
ghost use Rattle.vp_serving.specs.Ends.{end_of_node, end_of_output};
ghost use Rattle.vp_serving.specs.declared.end.End.TheVariants as ends;

use vp_base::NoMemory;
use vp_node::NodeEnd;
use vp_outside::{Failed, OutFault};

/// Why serving ended.
#[derive(Clone, Copy, Debug, Drop, PartialEq, Eq)]
pub enum End {
    /// A stop frame came.
    Stopped,
    /// `turns` datagrams came, and none of them stopped the node.
    TurnsDone,
    /// The port wasn't bound, or no datagram was received.
    LinkFault,
    /// The disk failed.
    DiskFault,
    /// The sink failed.
    WriteFault,
    /// The log is damaged: after the open gate at byte `at` of this half comes no batch of records with a gate.
    BadLog { half: u8, at: u64 },
    /// The log's life is the last one; its number is given.
    LivesSpent { life: u32 },
    NoMemory,
}

impl From<NodeEnd> for End {
    ghost from_gives = { λ end given. given ≡ end_of_node end };

    fn from(end: NodeEnd) -> End {
        match end {
            NodeEnd::DiskFault => End::DiskFault,
            NodeEnd::BadLog { half, at } => End::BadLog { half, at },
            NodeEnd::LivesSpent { life } => End::LivesSpent { life },
            NodeEnd::NoMemory => End::NoMemory,
        }
    }
}

impl From<Failed> for End {
    ghost from_gives = { λ _ given. given ≡ ends.LinkFault };

    fn from(_: Failed) -> End {
        End::LinkFault
    }
}

impl From<OutFault> for End {
    ghost from_gives = { λ fault given. given ≡ end_of_output fault };

    fn from(fault: OutFault) -> End {
        match fault {
            OutFault::Failed => End::WriteFault,
            OutFault::NoMemory => End::NoMemory,
        }
    }
}

impl From<NoMemory> for End {
    ghost from_gives = { λ _ given. given ≡ ends.NoMemory };

    fn from(_: NoMemory) -> End {
        End::NoMemory
    }
}
