ghost use Rattle.std.specs.Prelude.{◌≡◌, ◌≤◌, length, min, take, drop};

/// Copies the bytes from a place on, as far as the buffer holds them, and says how many these are.
pub(crate) fn copy_from(buf: &mut [u8], bytes: &[u8], at: usize) -> usize
    requires { at ≤ length bytes.now }
    ensures count { result ≡ min (length (drop at bytes.now)) (length buf.old) }
    ensures copied { take result buf.new ≡ take result (drop at bytes.now) }
{
    let rest = &bytes[at..];
    let count = rest.len().min(buf.len());
    buf[..count].copy_from_slice(&rest[..count]);
    count
}
