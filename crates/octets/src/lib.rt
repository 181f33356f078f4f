// Bytes and the numbers written in them. Nothing here knows of ISO 8583.
#![tactic(auto)]

ghost use Rattle.std.specs.Prelude.{◌≡◌, cond, ◌+◌, ◌-◌, ◌*◌, ◌^◌, ◌≤◌, ◌<◌, length, replicate, leb};
ghost use Rattle.octets.specs.Lists.{all, between, lead, lay, placed};
ghost use Rattle.octets.specs.Numbers.{are_digits, digits, number, decimal, decimal_of, big_endian, big_endian_of};
ghost use Rattle.octets.specs.Numerals.{digit_count, numeral};

// The last byte of ASCII.
pub const LAST_ASCII: u8 = 127;

// A byte as a number that can be reckoned with.
pub fn wide(b: u8) -> usize
    ensures value { result ≡ b }
    ensures small { result < 256 }
{
    b as usize
}

// Whether b lies between low and high.
#[tactic(auto, unfolding(crate::specs::Lists::between))]
pub fn is_between(b: u8, low: u8, high: u8) -> bool
    ensures { result ≡ between low high b }
{
    low <= b && b <= high
}

// How many bytes at the front of s lie between low and high, up to the first that does not.
pub fn lead_between(s: &[u8], low: u8, high: u8) -> usize
    ensures { result ≡ lead (between low high) s.now }
{
    s.iter().take_while(|b| is_between(**b, low, high)).count()
}

// Whether each byte of s lies between low and high.
pub fn all_between(s: &[u8], low: u8, high: u8) -> bool
    ensures { result ≡ all (between low high) s.now }
{
    s.iter().all(|b| is_between(*b, low, high))
}

// Whether s is n bytes long, all of them ASCII digits.
#[tactic(auto, unfolding(crate::specs::Numbers::are_digits))]
pub fn are_digits(n: usize, s: &[u8]) -> bool
    ensures { result ≡ are_digits n s.now }
{
    s.len() == n && all_between(s, b'0', b'9')
}

// Copies all of src to the front of out. Where it does not fit, out is left as it is.
pub fn put(src: &[u8], out: &mut [u8])
    ensures { out.new ≡ placed src.now out.old }
{
    if src.len() <= out.len() {
        // By index: the library's `copy_from_slice` calls `memmove`, which a program that links libdesk.a would have to bring.
        for (k, b) in src.iter().enumerate() {
            out[k] = *b;
        }
    }
}

// Fills the first n bytes of out with b. Where there are not so many, out is left as it is.
pub fn fill(out: &mut [u8], n: usize, b: u8)
    ensures { out.new ≡ placed (replicate n b) out.old }
{
    if n <= out.len() {
        out[..n].fill(b);
    }
}

// Writes n in w ASCII digits, the highest first: its last w digits where it has more. Where they do not fit, out is left as it is.
pub fn put_decimal(n: usize, w: usize, out: &mut [u8])
    ensures { out.new ≡ placed (decimal w n) out.old }
{
    if w <= out.len() {
        put_digits(n, 10, b'0', w, out);
    }
}

// Writes n in w bytes, the highest first: its last w bytes where it has more. Where they do not fit, out is left as it is.
pub fn put_big_endian(n: usize, w: usize, out: &mut [u8])
    ensures { out.new ≡ placed (big_endian w n) out.old }
{
    if w <= out.len() {
        put_digits(n, 256, 0, w, out);
    }
}

fn put_digits(n: usize, base: usize, first: u8, w: usize, out: &mut [u8])
    requires base_nonzero { 0 < base }
    requires base_bound { first + base ≤ 256 }
    requires room { w ≤ length out.old }
    ensures { out.new ≡ lay (digits base first w n) out.old }
{
    let mut left = n;
    for k in (0..w).rev() {
        out[k] = first + (left % base) as u8;
        left /= base;
    }
}

// The number that up to sixteen bytes spell as ASCII digits; 0 where there are more. A byte x counts as x - 0x30, or 0 below that.
// 0 and no `Option`: the promise says 0 (docs/DECISIONS.md, F10).
pub fn decimal_of(s: &[u8]) -> usize
    ensures { result ≡ cond (leb (length s.now) 16) (decimal_of s.now) 0 }
{
    if s.len() <= 16 {
        number_of(s, 10, b'0')
    } else {
        0
    }
}

// The number that big-endian bytes spell, up to eight of them; 0 where there are more.
// 0 and no `Option`: the promise says 0 (docs/DECISIONS.md, F10).
pub fn big_endian_of(s: &[u8]) -> usize
    ensures { result ≡ cond (leb (length s.now) 8) (big_endian_of s.now) 0 }
{
    if s.len() <= 8 {
        number_of(s, 256, 0)
    } else {
        0
    }
}

// The number that s spells in the base, where the byte first is the digit 0, as every byte below it.
fn number_of(s: &[u8], base: usize, first: u8) -> usize
    requires digits { 1 < base }
    requires fits { 255 * base ^ length s.now ≤ (base - 1) * 2 ^ 64 }
    ensures { result ≡ number base first 0 s.now }
{
    let mut n = 0;
    for b in s {
        n = n * base + wide(b.saturating_sub(first));
    }
    n
}

// How many decimal digits n has without leading zeros; at least one.
pub fn digit_count(n: usize) -> usize
    ensures { result ≡ digit_count n }
{
    n.max(1).ilog10() as usize + 1
}

// Writes n in decimal digits without leading zeros, and answers how many they are. Where they do not fit, out is left as it is.
pub fn put_numeral(n: usize, out: &mut [u8]) -> usize
    ensures size { result ≡ length (numeral n) }
    ensures writes { out.new ≡ placed (numeral n) out.old }
{
    let count = digit_count(n);
    put_decimal(n, count, out);
    count
}
