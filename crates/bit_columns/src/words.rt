// Bits of a bit string, read eight bytes at a time.
ghost use Rattle.std.specs.Prelude.{◌≡◌, ℕ, ◌+◌, ◌-◌, ◌*◌, ◌/◌, ◌%◌, ◌^◌, ◌≤◌, ◌<◌, ◌↔◌, IsTrue, length, take, drop};
ghost use Rattle.bit_columns.specs.Number.{number};
ghost use Rattle.bit_columns.specs.Bits.{bits_from, IsBits};

// The eight bytes from `at` on as a number, the least byte first.
#[inline(always)]
pub(crate) fn word_at(bytes: &[u8], at: usize) -> u64
    requires { at + 8 ≤ length bytes.now }
    ensures { result ≡ number (take 8 (drop at bytes.now)) }
{
    u64::from_le_bytes([
        bytes[at],
        bytes[at + 1],
        bytes[at + 2],
        bytes[at + 3],
        bytes[at + 4],
        bytes[at + 5],
        bytes[at + 6],
        bytes[at + 7],
    ])
}

// The bytes from `at` on as a number, the least byte first. At most eight are left.
fn last_word(bytes: &[u8], at: usize) -> u64
    requires inside { at ≤ length bytes.now }
    requires few { length bytes.now ≤ at + 8 }
    ensures { result ≡ number (take 8 (drop at bytes.now)) }
{
    let mut word = 0u64;
    let mut end = bytes.len();
    while at < end {
        end -= 1;
        word = word << 8 | u64::from(bytes[end]);
    }
    word
}

// The lowest `width` bits of a number.
#[inline(always)]
pub(crate) fn low_bits(number: u64, width: u32) -> u64
    requires { width ≤ 64 }
    ensures value { result ≡ number % 2 ^ width }
    ensures below { result < 2 ^ width }
{
    if width < 64 {
        number & ((1 << width) - 1)
    } else {
        number
    }
}

// The `width` bits from bit `from` on as a number, the least bit first.
#[inline(always)]
pub(crate) fn bits_at(bytes: &[u8], from: usize, width: u32) -> u64
    requires width { width ≤ 64 }
    requires inside { from + width ≤ 8 * length bytes.now }
    ensures value { result ≡ bits_from bytes.now from width }
    ensures below { result < 2 ^ width }
{
    let at = from / 8;
    let skipped = (from % 8) as u32;
    if bytes.len() < at + 8 {
        low_bits(last_word(bytes, at) >> skipped, width)
    } else if skipped + width <= 64 {
        low_bits(word_at(bytes, at) >> skipped, width)
    } else {
        low_bits(crossing(word_at(bytes, at), bytes[at + 8], skipped), width)
    }
}

// Of a word and the byte after it, the 64 bits that follow the first `skipped` bits.
#[inline(always)]
fn crossing(word: u64, next: u8, skipped: u32) -> u64
    requires some { 0 < skipped }
    requires few { skipped < 8 }
    ensures { result ≡ (next * 2 ^ 64 + word) / 2 ^ skipped % 2 ^ 64 }
{
    word >> skipped | u64::from(next) << (64 - skipped)
}

// Whether the bytes are as many as the bits take, and the spare bits are 0.
pub(crate) fn is_bits(bytes: &[u8], bits: u64) -> bool
    ensures { IsTrue result ↔ IsBits bytes.now bits }
{
    bytes.len() as u64 == bits.div_ceil(8)
        && (bits % 8 == 0 || bytes[bytes.len() - 1] >> (bits % 8) == 0)
}
