//! Keys for owners.

ghost use Rattle.std.specs.Prelude.{◌≡◌};
ghost use Rattle.vp_locks.specs.Keys.{owner_key};

use vp_base::Owner;

/// A key for an owner, of plain numbers: keys ascend in the order of owners. The first number is 0 for a transaction, whose numbers
/// follow, and 1 for a refresh.
pub(crate) type OwnerKey = (u8, u8, u32, u32);

pub(crate) fn owner_key(owner: &Owner) -> OwnerKey
    ensures { result ≡ owner_key owner.now }
{
    match owner {
        Owner::Txn(txn) => (0, txn.site.get(), txn.life, txn.seq),
        Owner::Refresh => (1, 0, 0, 0),
    }
}
