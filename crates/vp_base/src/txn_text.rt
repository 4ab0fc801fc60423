//! The text of a transaction, SITE.LIFE.SEQ.

ghost use Rattle.std.specs.Prelude.{◌≡◌, ◌++◌, ◌∷◌, OnOk, OnErr};
ghost use Rattle.std.specs.Fmt.{decimal};
ghost use Rattle.vp_text.specs.Meaning.{Answers};
ghost use Rattle.vp_text.specs.Printing.{Appends};
ghost use Rattle.vp_text.specs.Reading.{Reads, whole, number_at};
ghost use Rattle.vp_base.specs.Identifiers.{IsTxnText, txn_text};
ghost use Rattle.vp_base.specs.Reading.{txn_at};
ghost use Rattle.vp_base.specs.Faults.{bad_place};

use crate::fault::BadName;
use crate::ids::{SiteId, TxnId};
use crate::limits::LAST_SITE;
use crate::memory::NoMemory;
use vp_text::{Cursor, Unexpected, print_number};

impl SiteId {
    /// Reads a site, a number from 1 to 16, from the front of what is left.
    pub fn parse(cursor: &mut Cursor) -> Result<SiteId, Unexpected>
        ensures { Reads (λ s. s) (λ e. e.left) result cursor.new (number_at 1 16 cursor.old) }
    {
        let number = cursor.number_u8(1, LAST_SITE)?;
        Ok(SiteId::of(number))
    }

    /// Appends its number. Where memory is lacking, `out` stays as it is.
    pub fn print(&self, out: &mut Vec<u8>) -> Result<(), NoMemory>
        ensures ok { OnOk result (out.new.items ≡ out.old.items ++ decimal self.now) }
        ensures err { OnErr result (out.new.items ≡ out.old.items) }
    {
        print_number(out, u64::from(self.get()))?;
        Ok(())
    }
}

impl TxnId {
    /// Reads the whole text as a transaction: a site from 1 to 16, a life from 1, and a place in that life from 1. `BadName` says
    /// how many bytes of the text begin a transaction.
    pub fn read(text: &[u8]) -> Result<TxnId, BadName>
        ensures { Answers IsTxnText (λ t. t) bad_place text.now result }
    {
        let mut cursor = Cursor::new(text);
        match TxnId::parse_whole(&mut cursor) {
            Ok(txn) => Ok(txn),
            Err(e) => Err(BadName {
                at: text.len() - e.left,
            }),
        }
    }

    fn parse_whole(cursor: &mut Cursor) -> Result<TxnId, Unexpected>
        ensures { Reads (λ t. t) (λ e. e.left) result cursor.new (whole txn_at cursor.old) }
    {
        let txn = TxnId::parse(cursor)?;
        cursor.end()?;
        Ok(txn)
    }

    /// Reads a transaction from the front of what is left.
    #[tactic(auto, unfolding(crate::specs::Reading::txn_at))]
    pub fn parse(cursor: &mut Cursor) -> Result<TxnId, Unexpected>
        ensures { Reads (λ t. t) (λ e. e.left) result cursor.new (txn_at cursor.old) }
    {
        let site = SiteId::parse(cursor)?;
        cursor.literal(b".")?;
        let life = cursor.number_u32(1, u32::MAX)?;
        cursor.literal(b".")?;
        let seq = cursor.number_u32(1, u32::MAX)?;
        Ok(TxnId { site, life, seq })
    }

    /// Appends the text of the transaction. After an error a beginning of it may have been appended.
    #[tactic(auto, using(vp_text::proofs::Printing::printing))]
    pub fn print(&self, out: &mut Vec<u8>) -> Result<(), NoMemory>
        ensures { Appends result out.old.items (txn_text self.now) out.new.items }
    {
        self.site.print(out)?;
        print_after(out, b'.', self.life)?;
        print_after(out, b'.', self.seq)
    }
}

/// Appends a mark and then the number. After an error a beginning of them may have been appended.
#[tactic(auto, using(vp_text::proofs::Printing::printing))]
pub fn print_after(out: &mut Vec<u8>, mark: u8, number: u32) -> Result<(), NoMemory>
    ensures { Appends result out.old.items (mark ∷ decimal number) out.new.items }
{
    out.push(mark)?;
    print_number(out, u64::from(number))?;
    Ok(())
}
