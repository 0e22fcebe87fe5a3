//! Writes bytes into the caller's buffer.
ghost use Rattle.std.specs.Prelude.{◌≡◌, ◌+◌, ◌≤◌, length};
ghost use Rattle.digits_core.specs.Buffers.{pasted};

/// Puts bytes into `out` from `at` on, and returns where they end.
pub fn put_at(bytes: &[u8], at: usize, out: &mut [u8]) -> usize
    requires { at + length bytes.now ≤ length out.old }
    ensures end { result ≡ at + length bytes.now }
    ensures put { out.new ≡ pasted out.old at bytes.now }
{
    let end = at + bytes.len();
    out[at..end].copy_from_slice(bytes);
    end
}
