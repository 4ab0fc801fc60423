//! Keys for transactions.

ghost use Rattle.std.specs.Prelude.{◌≡◌};
ghost use Rattle.vp_tables.specs.Keys.{key_of};

use vp_base::TxnId;

/// A key for a transaction, of plain numbers: keys ascend in the order of transactions.
pub(crate) type TxnKey = (u8, u32, u32);

pub(crate) fn key_of(txn: &TxnId) -> TxnKey
    ensures { result ≡ key_of txn.now }
{
    (txn.site.get(), txn.life, txn.seq)
}
