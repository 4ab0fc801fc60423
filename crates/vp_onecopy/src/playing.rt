//! Playing operations on the one copy.

ghost use Rattle.std.specs.Prelude.{◌≡◌, ◌<◌, length, OnErr};
ghost use Rattle.vp_model.specs.Words.{same_content};
ghost use Rattle.vp_onecopy.specs.Playing.{op_record, OpsWithin, PlaysOne, Plays};

use crate::map::Map;
use vp_base::{CopyOf, NoMemory, Op, Ops, Value};

/// Why the operations couldn't all be played.
#[derive(Drop)]
pub enum PlayFault {
    /// The operation at the place `op`, counted from 1, read the content `read`, but the copy has `kept`.
    Differs {
        op: usize,
        kept: Option<Value>,
        read: Option<Value>,
    },
    /// Memory is lacking.
    NoMemory,
}

impl From<NoMemory> for PlayFault {
    ghost use Rattle.vp_onecopy.specs.declared.playing.PlayFault.TheVariants as faults;

    ghost from_gives = { λ _ e. e ≡ faults.NoMemory };

    fn from(_e: NoMemory) -> PlayFault {
        PlayFault::NoMemory
    }
}

/// Plays the operations in order. After an error the copy is as the operations before it left it.
pub fn play(map: &mut Map, ops: &Ops) -> Result<(), PlayFault>
    requires { OpsWithin (length map.old) ops.now }
    ensures plays { Plays map.old ops.now map.new result }
    ensures len { length map.new ≡ length map.old }
{
    for (index, operation) in ops.as_slice().iter().enumerate() {
        play_one(map, index + 1, operation)?;
    }
    Ok(())
}

/// Whether both contents are the same value, or none.
fn is_same_content(a: &Option<Value>, b: &Option<Value>) -> bool
    ensures { result ≡ same_content a.now b.now }
{
    match (a, b) {
        (None, None) => true,
        (Some(a), Some(b)) => a.is(b.as_bytes()),
        _ => false,
    }
}

/// Plays one operation, which is at this place.
fn play_one(map: &mut Map, place: usize, operation: &Op) -> Result<(), PlayFault>
    requires { op_record operation.now < length map.old }
    ensures plays { PlaysOne map.old place operation.now map.new result }
    ensures err { OnErr result (map.new ≡ map.old) }
    ensures len { length map.new ≡ length map.old }
{
    match operation {
        Op::Read { rec, value } => {
            let kept = &map.as_slice()[usize::from(rec.get())];
            if is_same_content(value, kept) {
                return Ok(());
            }
            Err(PlayFault::Differs {
                op: place,
                kept: kept.copy_of()?,
                read: value.copy_of()?,
            })
        }
        Op::Write { rec, value } => {
            map.set(*rec, value.copy_of()?);
            Ok(())
        }
    }
}
