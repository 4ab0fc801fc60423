//! What the stopped sites hold of one record.

ghost use Rattle.std.specs.Prelude.{◌≡◌, IfOk, OnOk, filter, option_copied};
ghost use Rattle.std.specs.List.{list_any};
ghost use Rattle.vp_model.specs.Words.{keys};
ghost use Rattle.vp_model.specs.Catalogue.{weight_inside, weight_total};
ghost use Rattle.vp_audit.specs.Audited.{can_of, copies_on, finding_of, is_dated, judging_copy, newest_of, rows_of, rows_on, settled_copy, settled_on, sites_dated, table_on, with_copy, writes_to};

use vp_base::{CopyOf, Doubt, NoMemory, RecId, Seq, SiteId, Sites, Stored, TxnId, ViewId};
use vp_catalog::Catalog;
use vp_lists::{HasKey, is_same_txn, put_in, txn_comes_before, view_comes_before};
use vp_records::Durable;

/// Whether the value of a record is sure.
#[derive(Clone, Copy, PartialEq, Eq)]
pub enum Can {
    /// It isn't: no more than half of the weight of the record's copies is at the sites.
    No { inside: u32, total: u32 },
    /// It isn't before this transaction has ended, which is the least that a site has in doubt on the record.
    Wait { txn: TxnId },
    /// It is: the newest copy has the value.
    Yes,
}

/// A transaction in doubt at a site, with its view.
#[derive(Clone, Copy, PartialEq, Eq)]
pub struct DoubtAt {
    pub txn: TxnId,
    pub view: ViewId,
    pub site: SiteId,
}

/// Transactions in doubt at sites, ascending by transaction and then by site.
pub type Doubts = Seq<DoubtAt>;

/// What the sites hold of a record.
#[derive(Drop)]
pub struct Found {
    pub rec: RecId,
    /// The newest settled copy; none where no copy is settled.
    pub newest: Option<Stored>,
    /// The sites whose settled copies have its date, ascending.
    pub sites: Sites,
    pub doubts: Doubts,
    pub can: Can,
}

/// What the sites hold of each record, in catalogue order.
pub type Report = Seq<Found>;

/// Sites with their durable parts, ascending by site.
pub type Parts = Seq<(SiteId, Durable)>;

impl HasKey for DoubtAt {
    ghost use Rattle.vp_audit.specs.Audited.{same_row, row_before};

    ghost same = { same_row };

    ghost before = { row_before };

    fn is_same(&self, other: &DoubtAt) -> bool {
        is_same_txn(&self.txn, &other.txn) && self.site == other.site
    }

    fn comes_before(&self, other: &DoubtAt) -> bool {
        txn_comes_before(&self.txn, &other.txn)
            || (is_same_txn(&self.txn, &other.txn) && self.site.get() < other.site.get())
    }
}

impl Found {
    /// Finds what the sites hold of the record; `sites` are those of the parts.
    pub(crate) fn of(
        catalog: &Catalog,
        parts: &Parts,
        sites: &Sites,
        rec: RecId,
    ) -> Result<Found, NoMemory>
        requires { sites.now ≡ keys parts.now }
        ensures { IfOk result (λ f. f ≡ finding_of catalog.now parts.now rec) }
    {
        let newest = newest_on(parts, rec)?;
        let dated = sites_dated(parts, rec, &newest)?;
        let doubts = doubts_on(parts, rec)?;
        let can = can_of(sums_on(catalog, parts, sites, rec, &newest)?, &doubts);
        Ok(Found {
            rec,
            newest,
            sites: dated,
            doubts,
            can,
        })
    }
}

fn writes_to(doubt: &Doubt, rec: RecId) -> bool
    ensures { result ≡ writes_to rec doubt.now }
{
    let writes = doubt.writes.as_slice();
    writes.iter().map(|write| write.0).any(|other| other == rec)
}

fn is_doubted(doubts: &[Doubt], rec: RecId) -> bool
    ensures { result ≡ list_any (writes_to rec) doubts.now }
{
    doubts.iter().any(|doubt| writes_to(doubt, rec))
}

/// The site's copy of the record; none where a transaction in doubt writes it, or the site has no copy.
fn settled_copy(durable: &Durable, rec: RecId) -> Option<&Stored>
    ensures { option_copied result ≡ settled_copy rec durable.now }
{
    if is_doubted(durable.doubts().as_slice(), rec) {
        return None;
    }
    durable.stored(rec)
}

/// The newer of two copies, and the first if they have the same date; if there is one copy, that one.
fn with_copy(best: Option<Stored>, copy: Option<&Stored>) -> Result<Option<Stored>, NoMemory>
    ensures { IfOk result (λ newer. newer ≡ with_copy best (option_copied copy.entry)) }
{
    Ok(match (best, copy) {
        (best, None) => best,
        (None, Some(copy)) => Some(copy.copy_of()?),
        (Some(best), Some(copy)) => {
            if view_comes_before(&best.date, &copy.date) {
                Some(copy.copy_of()?)
            } else {
                Some(best)
            }
        }
    })
}

/// The newest settled copy, of the least site where several have its date; none where no copy is settled.
fn newest_on(parts: &Parts, rec: RecId) -> Result<Option<Stored>, NoMemory>
    ensures { IfOk result (λ newest. newest ≡ newest_of (settled_on rec parts.now)) }
{
    let mut newest = None;
    for part in parts.as_slice() {
        newest = with_copy(newest, settled_copy(&part.1, rec))?;
    }
    Ok(newest)
}

/// The newest copy, settled or not, of the least site where several have its date; none where the sites have none.
fn newest_copy(parts: &Parts, rec: RecId) -> Result<Option<Stored>, NoMemory>
    ensures { IfOk result (λ newest. newest ≡ newest_of (copies_on rec parts.now)) }
{
    let mut newest = None;
    for part in parts.as_slice() {
        newest = with_copy(newest, part.1.stored(rec))?;
    }
    Ok(newest)
}

/// The copy by whose table the weights are added up: the newest settled one, else the newest one.
fn judging_copy(
    parts: &Parts,
    rec: RecId,
    newest: &Option<Stored>,
) -> Result<Option<Stored>, NoMemory>
    requires { newest.now ≡ newest_of (settled_on rec parts.now) }
    ensures { IfOk result (λ copy. copy ≡ judging_copy rec parts.now) }
{
    match newest {
        Some(copy) => Ok(Some(copy.copy_of()?)),
        None => newest_copy(parts, rec),
    }
}

/// The weight of the record's copies at the sites, and of all of them, by its newest table there.
fn sums_on(
    catalog: &Catalog,
    parts: &Parts,
    sites: &Sites,
    rec: RecId,
    newest: &Option<Stored>,
) -> Result<(u32, u32), NoMemory>
    requires { newest.now ≡ newest_of (settled_on rec parts.now) }
    ensures { IfOk result (λ sums. sums ≡
        (let t = table_on catalog.now rec parts.now in (weight_inside sites.now t, weight_total t))) }
{
    match judging_copy(parts, rec, newest)? {
        None => Ok(catalog.sums(rec, None, sites)),
        Some(copy) => Ok(catalog.sums(rec, copy.table.as_ref(), sites)),
    }
}

fn is_dated(newest: &Option<Stored>, copy: Option<&Stored>) -> bool
    ensures { result ≡ is_dated newest.now (option_copied copy.entry) }
{
    match (newest, copy) {
        (Some(newest), Some(copy)) => copy.date == newest.date,
        _ => false,
    }
}

/// Lists the sites whose settled copies have the date of this one.
fn sites_dated(parts: &Parts, rec: RecId, newest: &Option<Stored>) -> Result<Sites, NoMemory>
    ensures { IfOk result (λ sites. sites ≡ sites_dated newest.now rec parts.now) }
{
    let mut sites = Sites::new(parts.allocator());
    for part in parts.as_slice() {
        if is_dated(newest, settled_copy(&part.1, rec)) {
            sites.push(part.0)?;
        }
    }
    Ok(sites)
}

/// Lists the transactions in doubt on the record.
fn doubts_on(parts: &Parts, rec: RecId) -> Result<Doubts, NoMemory>
    ensures { IfOk result (λ doubts. doubts ≡ rows_on rec parts.now) }
{
    let mut rows = Doubts::new(parts.allocator());
    for part in parts.as_slice() {
        add_doubts(&mut rows, part.0, part.1.doubts().as_slice(), rec)?;
    }
    Ok(rows)
}

/// Puts those doubts of one site that are on the record among the others, in their order.
fn add_doubts(rows: &mut Doubts, site: SiteId, doubts: &[Doubt], rec: RecId) -> Result<(), NoMemory>
    ensures { OnOk result (rows.new ≡ rows_of site (filter (writes_to rec) doubts.now) rows.old) }
{
    for doubt in doubts {
        if writes_to(doubt, rec) {
            let row = DoubtAt {
                txn: doubt.txn,
                view: doubt.view,
                site,
            };
            put_in(rows, row)?;
        }
    }
    Ok(())
}

/// Says whether the value is sure, by the weights and the doubts: it needs more than half of the weight (Bernstein, Hadzilacos and Goodman
/// 1987, chapter 8), and no transaction in doubt.
fn can_of(sums: (u32, u32), doubts: &Doubts) -> Can
    ensures { result ≡ can_of sums.0 sums.1 doubts.now }
{
    let (inside, total) = sums;
    if 2 * u64::from(inside) <= u64::from(total) {
        return Can::No { inside, total };
    }
    match doubts.as_slice().first() {
        Some(doubt) => Can::Wait { txn: doubt.txn },
        None => Can::Yes,
    }
}
