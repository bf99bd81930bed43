//! Bytes at the front of a caller's memory.
ghost use Rattle.std.specs.Prelude.{◌≡◌, ◌≤◌, ◌++◌, drop, length, take};

/// Copies bytes to the front of `out`, which has room for them. What is after them stays as it was.
pub fn copy_to_front(bytes: &[u8], out: &mut [u8])
    requires { length bytes.now ≤ length out.old }
    ensures front { take (length bytes.now) out.new ≡ bytes.now }
    ensures all { out.new ≡ bytes.now ++ drop (length bytes.now) out.old }
{
    let (front, _) = out.split_at_mut(bytes.len());
    front.copy_from_slice(bytes);
}
