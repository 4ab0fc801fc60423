//! Reading transactions in a range, and those of an ascending list.

ghost use Rattle.std.specs.Prelude.{◌≡◌, ◌≤◌, ◌<◌, ◌+◌, ◌-◌, suc, false, IfOk, IfSome};
ghost use Rattle.vp_text.specs.Reading.{Reads};
ghost use Rattle.vp_base.specs.Identifiers.{IsTxn};
ghost use Rattle.vp_bytes.specs.Ranges.{ascending_txn_at, IsTxnBetween, IsTxnRange, last_rank, least_life, least_seq, most_life, most_seq, next_rank, rank, txn_of_rank, txn_between_at};

use crate::ranges::read_u32_within;
use crate::reading::read_byte;
use vp_base::{LAST_SITE, SiteId, TxnId};
use vp_text::{Cursor, Unexpected};

/// Reads a transaction from `low` to `high`.
#[tactic(auto, unfolding(crate::specs::Ranges::txn_between_at))]
pub fn read_txn_between(cursor: &mut Cursor, low: &TxnId, high: &TxnId) -> Result<TxnId, Unexpected>
    requires { IsTxnRange low.now high.now }
    ensures read { Reads (λ t. t) (λ e. e.left) result cursor.new
        (txn_between_at low.now high.now cursor.old) }
    ensures range { IfOk result (λ t. IsTxnBetween low.now high.now t) }
{
    let site = read_byte(cursor, low.site.get(), high.site.get())?;
    let life = read_u32_within(cursor, life_from(low, site), life_to(high, site))?;
    let seq = read_u32_within(cursor, seq_from(low, site, life), seq_to(high, site, life))?;
    Ok(TxnId {
        site: SiteId::of(site),
        life,
        seq,
    })
}

/// The least life at the site of transactions from `low` on.
fn life_from(low: &TxnId, site: u8) -> u32
    ensures { result ≡ least_life low.now site }
{
    if site == low.site.get() { low.life } else { 1 }
}

/// The greatest life at the site of transactions up to `high`.
fn life_to(high: &TxnId, site: u8) -> u32
    ensures { result ≡ most_life high.now site }
{
    if site == high.site.get() {
        high.life
    } else {
        u32::MAX
    }
}

/// The least place in the life of transactions from `low` on.
fn seq_from(low: &TxnId, site: u8, life: u32) -> u32
    ensures { result ≡ least_seq low.now site life }
{
    if site == low.site.get() && life == low.life {
        low.seq
    } else {
        1
    }
}

/// The greatest place in the life of transactions up to `high`.
fn seq_to(high: &TxnId, site: u8, life: u32) -> u32
    ensures { result ≡ most_seq high.now site life }
{
    if site == high.site.get() && life == high.life {
        high.seq
    } else {
        u32::MAX
    }
}

/// Reads a transaction above the last one, if there is one, that leaves room for the others after it.
pub fn read_ascending_txn(
    cursor: &mut Cursor,
    last: Option<TxnId>,
    following: u64,
) -> Result<TxnId, Unexpected>
    requires last { IfSome last IsTxn }
    requires room { next_rank last + following ≤ last_rank }
    ensures read { Reads (λ t. t) (λ e. e.left) result cursor.new
        (ascending_txn_at following (next_rank last) cursor.old) }
    ensures txn { IfOk result IsTxn }
    ensures range { IfOk result (λ t. (next_rank last ≤ rank t) × (rank t + following ≤ last_rank)) }
{
    read_txn_between(cursor, &txn_above(last), &txn_below(following))
}

/// The least transaction above the last one, if there is one.
fn txn_above(last: Option<TxnId>) -> TxnId
    requires last { IfSome last IsTxn }
    requires room { next_rank last ≤ last_rank }
    ensures { result ≡ txn_of_rank (next_rank last) }
{
    match last {
        None => TxnId {
            site: SiteId::of(1),
            life: 1,
            seq: 1,
        },
        Some(txn) => next_txn(txn),
    }
}

/// The least transaction above this one.
fn next_txn(txn: TxnId) -> TxnId
    requires txn { IsTxn txn }
    requires room { rank txn < last_rank }
    ensures { result ≡ txn_of_rank (suc (rank txn)) }
{
    if txn.seq < u32::MAX {
        TxnId {
            site: txn.site,
            life: txn.life,
            seq: txn.seq + 1,
        }
    } else if txn.life < u32::MAX {
        TxnId {
            site: txn.site,
            life: txn.life + 1,
            seq: 1,
        }
    } else {
        TxnId {
            site: SiteId::of(txn.site.get() + 1),
            life: 1,
            seq: 1,
        }
    }
}

/// The highest transaction that leaves room for `following` others after it.
fn txn_below(following: u64) -> TxnId
    ensures { result ≡ txn_of_rank (last_rank - following) }
{
    let most = u64::from(u32::MAX);
    let lives = following / most;
    TxnId {
        site: SiteId::of(LAST_SITE - (lives / most) as u8),
        life: (most - lives % most) as u32,
        seq: (most - following % most) as u32,
    }
}
