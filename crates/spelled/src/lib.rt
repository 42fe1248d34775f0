// Bytes spelled as a word of text: `0f20`, a pair of hexadecimal digits for each byte; `-`, no bytes; `a5*300`, one byte so many times.
#![tactic(auto)]

ghost use Rattle.std.specs.Prelude.{◌≡◌, ◌*◌, ◌<◌, ◌≤◌, [], ◌∷◌, ◌++◌, length, take, drop};
ghost use Rattle.spelled.specs.Spelled.{hex_digit, hex_text, plain_word, put_front, put_length, AsPairs, AsTimes, Spells, ReadIs, DigitIs, PairIs, AllDigits, Starred, Says};

use decimal::read_number;

// Reads the bytes that a word spells to the front of a buffer, and gives how many; a word in none of these forms, or of more bytes than there is room for, changes nothing.
pub fn read_bytes(word: &[u8], out: &mut [u8]) -> Option<usize>
    ensures { ReadIs (Spells word.now) out.old out.new result }
{
    match word {
        b"-" => Some(0),
        [_, _, b'*', _, ..] => read_times(word, out),
        _ => read_pairs(word, out),
    }
}

// Two digits for each byte.
fn read_pairs(word: &[u8], out: &mut [u8]) -> Option<usize>
    ensures { ReadIs (AsPairs word.now) out.old out.new result }
{
    let n = word.len() / 2;
    if n == 0 {
        return None;
    }
    if word.len() != 2 * n {
        return None;
    }
    if out.len() < n {
        return None;
    }
    if !all_digits(word) {
        return None;
    }
    lay(word, n, out);
    Some(n)
}

fn all_digits(word: &[u8]) -> bool
    ensures { Says (AllDigits word.now) result }
{
    word.iter().all(|b| digit(*b).is_some())
}

// Lays the n bytes of a word of digits to the front of a buffer.
fn lay(word: &[u8], n: usize, out: &mut [u8])
    requires { AllDigits word.now × (length word.now ≡ 2 * n) × (n ≤ length out.old) }
    ensures bytes { hex_text (take n out.new) ≡ word.now }
    ensures rest { drop n out.new ≡ drop n out.old }
{
    for i in 0..n {
        out[i] = pair(word[2 * i], word[2 * i + 1]).unwrap();
    }
}

// One byte so many times; the word has its `*`.
fn read_times(word: &[u8], out: &mut [u8]) -> Option<usize>
    requires { Starred word.now }
    ensures { ReadIs (AsTimes word.now) out.old out.new result }
{
    let b = pair(word[0], word[1])?;
    let n = read_number(&word[3..])? as usize;
    if n == 0 {
        return None;
    }
    if out.len() < n {
        return None;
    }
    out[..n].fill(b);
    Some(n)
}

// The byte of two digits.
fn pair(high: u8, low: u8) -> Option<u8>
    ensures { PairIs high low result }
{
    Some(digit(high)? * 16 + digit(low)?)
}

// What a byte stands for as a hexadecimal digit.
fn digit(b: u8) -> Option<u8>
    ensures { DigitIs b result }
{
    match b {
        b'0'..=b'9' => Some(b - b'0'),
        b'a'..=b'f' => Some(b - b'a' + 10),
        _ => None,
    }
}

// Writes the word of some bytes to the front of a buffer, and gives its length; where there is no room for it, nothing is changed, and 0 given.
pub fn write_bytes(bytes: &[u8], out: &mut [u8]) -> usize
    ensures length { result ≡ put_length (plain_word bytes.now) out.old }
    ensures word { out.new ≡ put_front (plain_word bytes.now) out.old }
{
    if bytes.is_empty() {
        return write_none(out);
    }
    if out.len() / 2 < bytes.len() {
        return 0;
    }
    write_pairs(bytes, out);
    2 * bytes.len()
}

fn write_none(out: &mut [u8]) -> usize
    ensures length { result ≡ put_length (45 ∷ []) out.old }
    ensures word { out.new ≡ put_front (45 ∷ []) out.old }
{
    if out.is_empty() {
        return 0;
    }
    out[0] = b'-';
    1
}

// Two digits for each byte.
fn write_pairs(bytes: &[u8], out: &mut [u8])
    requires { 2 * length bytes.now ≤ length out.old }
    ensures { out.new ≡ hex_text bytes.now ++ drop (2 * length bytes.now) out.old }
{
    for (i, b) in bytes.iter().enumerate() {
        out[2 * i] = digit_of(*b / 16);
        out[2 * i + 1] = digit_of(*b % 16);
    }
}

// The byte of a hexadecimal digit.
fn digit_of(d: u8) -> u8
    requires { d < 16 }
    ensures { result ≡ hex_digit d }
{
    if d < 10 { b'0' + d } else { b'a' - 10 + d }
}
