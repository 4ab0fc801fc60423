//! A live transaction that is taken out of its table while a call of it is done.

ghost use Rattle.std.specs.Prelude.{◌≡◌, [], false, OnOk};
ghost use Rattle.vp_base.specs.declared.event.Call.TheVariants as call;
ghost use Rattle.vp_model.specs.Calls.{handling};

use std::mem;
use vp_base::{Boxed, Call, CallNo, Live, NoMemory, Pending, Sites, TxnId};

/// A live transaction that is taken out of its table, with the call that is being done. An empty transaction of its name keeps its
/// place in the table.
#[derive(Drop)]
pub struct Handled {
    pub live: Live,
    pub pending: Pending,
}

impl Handled {
    /// The transaction's name.
    pub fn txn(&self) -> TxnId
        ensures { result ≡ self.now.live.txn }
    {
        self.live.txn
    }

    /// The number of the call.
    pub fn number(&self) -> CallNo
        ensures { result ≡ self.now.pending.number }
    {
        self.pending.number
    }

    /// Makes the call the pending one of the transaction, and leaves an empty call in `pending`.
    pub fn attach_call(&mut self) -> Result<(), NoMemory>
        ensures live { OnOk result (self.new.live ≡ handling self.old.live self.old.pending) }
        ensures left { OnOk result
            (self.new.pending ≡ record self.old.pending { call = call.Begin; missing = []; marked = false }) }
    {
        let alloc = self.live.ops.allocator();
        let empty = Pending {
            number: self.pending.number,
            port: self.pending.port,
            call: Call::Begin,
            missing: Sites::new(alloc),
            marked: false,
        };
        let call = mem::replace(&mut self.pending, empty);
        self.live.pending = Some(Boxed::new(alloc, call)?);
        Ok(())
    }
}
