//! Makes lines, and puts them if there is room for them.
ghost use Rattle.std.specs.Prelude.{◌≡◌, ◌+◌, ◌++◌, ◌<◌, ◌≤◌, ◌^◌, ◌∷◌, [], length};
ghost use Rattle.std.specs.Fmt.{decimal};
ghost use Rattle.digits_core.specs.Buffers.{pasted};

use arrayvec::ArrayVec;
use digits_core::put_at;
use itoa::Buffer;

/// Puts bytes at the end of a line.
pub fn push<const N: usize>(line: &mut ArrayVec<u8, N>, bytes: &[u8])
    requires { length line.old.items + length bytes.now ≤ N }
    ensures { line.new.items ≡ line.old.items ++ bytes.now }
{
    let _ = line.try_extend_from_slice(bytes);
}

/// Puts a number and a space at the end of a line.
pub fn push_number<const N: usize>(line: &mut ArrayVec<u8, N>, number: usize)
    requires { length line.old.items + 41 ≤ N }
    ensures put { line.new.items ≡ line.old.items ++ (decimal number ++ 32 ∷ []) }
    ensures few { length line.new.items ≤ length line.old.items + 41 }
{
    let mut digits = Buffer::new();
    push(line, digits.format(number).as_bytes());
    push(line, b" ");
}

/// Puts a line into `out` from `at` on if there is room for it, and returns where the line ends.
pub fn put_fitting(line: &[u8], at: usize, out: &mut [u8]) -> usize
    requires { at + length line.now < 2 ^ 64 }
    ensures end { result ≡ at + length line.now }
    ensures put { at + length line.now ≤ length out.old → out.new ≡ pasted out.old at line.now }
    ensures unchanged { length out.old < at + length line.now → out.new ≡ out.old }
{
    let end = at + line.len();
    if end <= out.len() {
        put_at(line, at, out);
    }
    end
}
