//! Reading tables of weights, as they follow the name of their record in a call.

ghost use Rattle.std.specs.Prelude.{◌≡◌, ◌<◌, ◌≤◌, IfOk, length};
ghost use Rattle.vp_text.specs.Reading.{Reads, Tries};
ghost use Rattle.vp_base.specs.Faults.{line_left};
ghost use Rattle.vp_schedule.specs.TableReading.{begins_space, goes_on, share_at, table_at};

use std::alloc::Global;
use vp_base::{LAST_SITE, LineFault, SiteId, Table};
use vp_text::{Cursor, Unexpected};

/// Reads a site above the given one and the weight of its copy.
#[tactic(auto, unfolding(crate::specs::TableReading::share_at))]
fn parse_share(cursor: &mut Cursor, above: u8) -> Result<(SiteId, u16), Unexpected>
    requires { above < 16 }
    ensures read { Reads (λ w. w) (λ e. e.left) result cursor.new (share_at above cursor.old) }
    ensures range { IfOk result (λ w. (above < w.0) × (w.0 ≤ 16)) }
{
    cursor.literal(b" ")?;
    let site = SiteId::of(cursor.number_u8(above + 1, LAST_SITE)?);
    cursor.literal(b":")?;
    let weight = cursor.number_u32(1, 65535)?;
    Ok((site, weight as u16))
}

fn begins_space(bytes: &[u8]) -> bool
    ensures { result ≡ begins_space bytes.now }
{
    match bytes {
        [] => false,
        [first, ..] => *first == b' ',
    }
}

/// Whether another weight has to come: a space does, and there may be a site above the given one.
fn goes_on(cursor: &Cursor, above: u8) -> bool
    ensures { result ≡ goes_on above cursor.now }
{
    above < LAST_SITE && begins_space(cursor.rest())
}

/// Reads the weights of 1 to 16 sites, ascending, up to the first byte that isn't a space after one of them.
#[tactic(auto, using(crate::proofs::Tables::table_read))]
pub fn parse_table(alloc: Global, cursor: &mut Cursor) -> Result<Table, LineFault>
    ensures { Tries (λ t. t) line_left result cursor.new (table_at cursor.old) }
{
    let shares = parse_shares(alloc, cursor)?;
    Ok(Table::of(shares))
}

/// Reads a share, and more as long as they go on.
fn parse_shares(alloc: Global, cursor: &mut Cursor) -> Result<Vec<(SiteId, u16)>, LineFault>
    ensures { Tries (λ t. t.items) line_left result cursor.new (table_at cursor.old) }
{
    let first = parse_share(cursor, 0)?;
    let mut above = first.0.get();
    let mut shares = Vec::new(alloc);
    shares.push(first)?;
    while goes_on(cursor, above) {
        let share = parse_share(cursor, above)?;
        above = share.0.get();
        shares.push(share)?;
    }
    Ok(shares)
}
