//! Filling a buffer that the caller lends.

ghost use Rattle.std.specs.Prelude.{◌≡◌, ◌-◌, ◌++◌, drop, length, min, take};

/// Copies the bytes from `at` on to the front of the buffer, as many as it has room for, and returns how many.
pub fn give(bytes: &[u8], at: u64, buf: &mut [u8]) -> usize
    ensures count { result ≡ min (length buf.old) (length bytes.now - at) }
    ensures given { buf.new ≡ take result (drop at bytes.now) ++ drop result buf.old }
{
    let from = bytes.len().min(at as usize);
    let count = buf.len().min(bytes.len() - from);
    buf[..count].copy_from_slice(&bytes[from..from + count]);
    count
}
