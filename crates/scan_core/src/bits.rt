//! Dots packed in bytes. The first dot of a byte is its high bit; 1 is dark.
ghost use Rattle.std.specs.Prelude.{◌≡◌, ◌<◌, ◌≤◌, ◌+◌, ◌-◌, ◌*◌, ◌/◌, ◌%◌, ℕ, length, slice_index};
ghost use Rattle.std.specs.Int.{bit_at};
ghost use Rattle.scan_core.specs.Bits.{dot_at};
ghost use Rattle.scan_core.specs.inner.Cutting.{coloured};

/// The bytes as one number, big-endian.
fn number_of(bytes: [u8; 8]) -> u64
    ensures { (k : ℕ) → k < 64 → bit_at result (63 - k) ≡ bit_at (slice_index bytes (k / 8)) (7 - k % 8) }
{
    let high = u32::from_be_bytes([bytes[0], bytes[1], bytes[2], bytes[3]]);
    let low = u32::from_be_bytes([bytes[4], bytes[5], bytes[6], bytes[7]]);
    u64::from(high) * 0x1_0000_0000 + u64::from(low)
}

/// The last bytes, eight at most, as one number, big-endian, with zeros behind them.
#[cold]
fn last_word(bits: &[u8], byte: usize) -> u64
    requires within { byte ≤ length bits.now }
    requires few { length bits.now ≤ byte + 8 }
    ensures { (k : ℕ) → k < 64 → byte + k / 8 < length bits.now → bit_at result (63 - k) ≡ bit_at (slice_index bits.now (byte + k / 8)) (7 - k % 8) }
{
    let mut bytes = [0; 8];
    for i in 0..bits.len() - byte {
        bytes[i] = bits[byte + i];
    }
    number_of(bytes)
}

/// The 64 dots from this byte on, the first in the high bit. Dots behind the last byte are light.
fn word_at(bits: &[u8], byte: usize) -> u64
    requires { byte < length bits.now }
    ensures { (k : ℕ) → k < 64 → byte + k / 8 < length bits.now → bit_at result (63 - k) ≡ bit_at (slice_index bits.now (byte + k / 8)) (7 - k % 8) }
{
    if bits.len() - byte < 8 {
        return last_word(bits, byte);
    }
    number_of([
        bits[byte],
        bits[byte + 1],
        bits[byte + 2],
        bits[byte + 3],
        bits[byte + 4],
        bits[byte + 5],
        bits[byte + 6],
        bits[byte + 7],
    ])
}

/// The dots from dot `from + at` up to the end of eight bytes, the first in the high bit. A bit is 1 if its dot has
/// the other colour.
pub(crate) fn others_from(bits: &[u8], from: usize, at: usize, dark: bool) -> u64
    requires within { from + at < 8 * length bits.now }
    requires few { at ≤ 65535 }
    ensures { (k : ℕ) → k < 64 - (from % 8 + at) % 8 → from + at + k < 8 * length bits.now → dot_at bits.now (from + (at + k)) ≡ coloured (bit_at result (63 - k)) dark }
{
    let first = from % 8 + at;
    let dots = word_at(bits, from / 8 + first / 8) << (first % 8);
    if dark { !dots } else { dots }
}

/// How many leading zeros the word has.
pub(crate) fn zeros_before(word: u64) -> usize
    ensures within { result ≤ 64 }
    ensures zeros { (k : ℕ) → k < result → bit_at word (63 - k) ≡ 0 }
    ensures one { result < 64 → bit_at word (63 - result) ≡ 1 }
{
    word.leading_zeros() as usize
}
