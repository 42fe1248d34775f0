// Numbers in text: decimal, without leading zeros.
#![tactic(auto)]

ghost use Rattle.std.specs.Prelude.{◌≡◌, [], ◌∷◌, ◌++◌, ◌≤◌, ◌<◌, length};
ghost use Rattle.decimal.specs.Decimal.{digit, num_text, NumberIs, FoundIs};
ghost use Rattle.decimal.specs.Laid.{put_at, put_end};

// Reads a word as a number: the one whose text it is.
pub fn read_number(word: &[u8]) -> Option<u64>
    ensures { NumberIs word.now result }
{
    let (value, end) = number_at(word, 0)?;
    (end == word.len()).then_some(value)
}

// Reads the digits that stand at a place, up to the first byte that is none, as a number, and gives the place behind them too.
pub fn number_at(text: &[u8], at: usize) -> Option<(u64, usize)>
    ensures { FoundIs text.now at result }
{
    let mut v = one_digit(*text.get(at)?)?;
    for i in at + 1..text.len() {
        if !text[i].is_ascii_digit() {
            return Some((v, i));
        }
        v = one_more(v, u64::from(text[i] - b'0'))?;
    }
    Some((v, text.len()))
}

// The number whose text is the byte b.
fn one_digit(b: u8) -> Option<u64>
    ensures { NumberIs (b ∷ []) result }
{
    if b.is_ascii_digit() {
        Some(u64::from(b - b'0'))
    } else {
        None
    }
}

// The number whose text is v's and the digit d behind it; behind a lone 0 no digit may stand.
fn one_more(v: u64, d: u64) -> Option<u64>
    requires { d < 10 }
    ensures { NumberIs (num_text v ++ (digit d ∷ [])) result }
{
    if v == 0 {
        return None;
    }
    v.checked_mul(10)?.checked_add(d)
}

// How long the text of a number is.
pub fn number_length(n: u64) -> usize
    ensures { (result ≡ length (num_text n)) × (result ≤ 20) }
{
    if n < 10 {
        return 1;
    }
    n.ilog10() as usize + 1
}

// Writes the text of a number at a place, and gives the place behind it; where there is no room for it, nothing is changed, and the place is given back.
pub fn put_number(n: u64, out: &mut [u8], at: usize) -> usize
    ensures place { result ≡ put_end (num_text n) at out.old }
    ensures text { out.new ≡ put_at (num_text n) at out.old }
{
    let digits = number_length(n);
    if out.len() <= at || out.len() - at < digits {
        return at;
    }
    let end = at + digits;
    lay_digits(n, &mut out[at..end]);
    end
}

// Writes the digits of a number from the last to the first, over bytes that are as many.
fn lay_digits(n: u64, out: &mut [u8])
    requires { length out.old ≡ length (num_text n) }
    ensures { out.new ≡ num_text n }
{
    let mut v = n;
    for i in (1..out.len()).rev() {
        out[i] = b'0' + (v % 10) as u8;
        v /= 10;
    }
    out[0] = b'0' + v as u8;
}
