//! Appends texts and numbers to bytes, and writes numbers and bytes into them at a place. If memory is refused, the old
//! bytes stay at the beginning.
ghost use Rattle.std.specs.Prelude.{◌≡◌, ◌++◌, ◌∷◌, ◌+◌, ◌-◌, ◌*◌, ◌/◌, ◌%◌, ◌<◌, ◌≤◌, OnOk, OnErr};
ghost use Rattle.std.specs.Prelude.{codes, drop, take, flat_map, length};
ghost use Rattle.std.specs.Fmt.{decimal, signed_decimal};
ghost use Rattle.std.specs.List.{range_with_len};
ghost use Rattle.std.specs.Char.{digit_char};
ghost use Rattle.yaml_listing.specs.Listing.{byte_text};
ghost use Rattle.yaml_listing.specs.inside.Put.{Puts, pair_text};

use std::alloc::AllocError;

/// A number of 64 bits has at most 20 digits.
const DIGITS: usize = 20;

/// Appends a text to `out`.
pub fn put_text(out: &mut Vec<u8>, text: &str) -> Result<(), AllocError>
    ensures { Puts result out.old.items text.now out.new.items }
{
    out.extend_from_slice(text.as_bytes())
}

/// Appends a space and a text to `out`.
pub fn put_part(out: &mut Vec<u8>, text: &str) -> Result<(), AllocError>
    ensures { Puts result out.old.items (codes " " ++ text.now) out.new.items }
{
    put_text(out, " ")?;
    put_text(out, text)
}

/// The two digits of each number below 100, one number after another.
fn pairs() -> &'static [u8; 200]
    ensures { result.now ≡ flat_map pair_text (range_with_len 0 100) }
{
    b"0001020304050607080910111213141516171819202122232425262728293031323334353637383940414243444546474849\
    5051525354555657585960616263646566676869707172737475767778798081828384858687888990919293949596979899"
}

/// The two digits of a number below 100.
fn pair_digits(number: u64) -> (u8, u8)
    requires { number < 100 }
    ensures tens { result.0 ≡ 48 + number / 10 }
    ensures ones { result.1 ≡ 48 + number % 10 }
{
    let digits = pairs();
    let place = 2 * number as usize;
    (digits[place], digits[place + 1])
}

/// Writes the two digits of a number below 100 before a place.
fn set_pair(buffer: &mut [u8], end: usize, number: u64)
    requires small { number < 100 }
    requires room { 2 ≤ end }
    requires within { end ≤ length buffer.old }
    ensures digits { drop (end - 2) buffer.new ≡ (48 + number / 10) ∷ (48 + number % 10) ∷ drop end buffer.old }
    ensures front { take (end - 2) buffer.new ≡ take (end - 2) buffer.old }
{
    let (tens, ones) = pair_digits(number);
    buffer[end - 1] = ones;
    buffer[end - 2] = tens;
}

/// Writes the digits of a number below 100 before a place, and returns where they begin.
///
/// If it has one digit, a `0` is left before it.
fn set_first_digits(buffer: &mut [u8], end: usize, number: u64) -> usize
    requires small { number < 100 }
    requires room { 2 ≤ end }
    requires within { end ≤ length buffer.old }
    ensures digits { drop result buffer.new ≡ decimal number ++ drop end buffer.old }
    ensures place { result + length (decimal number) ≡ end }
{
    set_pair(buffer, end, number);
    if number >= 10 { end - 2 } else { end - 1 }
}

/// Writes the digits of a number below 10,000 before a place, and returns where they begin.
///
/// If it has one digit or three, a `0` is left before it.
fn set_front(buffer: &mut [u8], end: usize, number: u64) -> usize
    requires small { number < 10000 }
    requires room { length (decimal number) + 1 ≤ end }
    requires within { end ≤ length buffer.old }
    ensures digits { drop result buffer.new ≡ decimal number ++ drop end buffer.old }
    ensures place { result + length (decimal number) ≡ end }
{
    if number >= 100 {
        set_pair(buffer, end, number % 100);
        set_first_digits(buffer, end - 2, number / 100)
    } else {
        set_first_digits(buffer, end, number)
    }
}

/// Writes the digits of a number before a place, and returns where they begin.
fn set_digits(buffer: &mut [u8], end: usize, number: u64) -> usize
    requires room { 21 ≤ end }
    requires within { end ≤ length buffer.old }
    ensures digits { drop result buffer.new ≡ decimal number ++ drop end buffer.old }
    ensures low { end ≤ result + 20 }
    ensures high { result ≤ end }
{
    let mut at = end;
    let mut left = number;
    'digits: while left >= 10000 {
        let four = left % 10000;
        set_pair(buffer, at, four % 100);
        set_pair(buffer, at - 2, four / 100);
        at -= 4;
        left /= 10000;
    }
    set_front(buffer, at, left)
}

/// Writes the two digits of a number below 100 at a place, and returns where they end.
#[inline(always)]
pub fn set_two(buffer: &mut [u8], at: usize, number: u64) -> usize
    requires small { number < 100 }
    requires room { at + 2 ≤ length buffer.old }
    ensures text { take result buffer.new ≡ take at buffer.old ++ pair_text number }
    ensures place { result ≡ at + 2 }
{
    set_pair(buffer, at + 2, number);
    at + 2
}

/// Writes the digits of a number below 100 at a place, and returns where they end.
#[inline(always)]
pub fn set_small(buffer: &mut [u8], at: usize, number: u64) -> usize
    requires small { number < 100 }
    requires room { at + 2 ≤ length buffer.old }
    ensures text { take result buffer.new ≡ take at buffer.old ++ decimal number }
    ensures low { at ≤ result }
    ensures high { result ≤ at + 2 }
{
    if number >= 10 {
        return set_two(buffer, at, number);
    }
    buffer[at] = b'0' + number as u8;
    at + 1
}

/// Writes the digits of a number at a place, and returns where they end: from the last ones on, in a row.
#[inline(never)]
fn set_long(buffer: &mut [u8], at: usize, number: u64) -> usize
    requires { at + 20 ≤ length buffer.old }
    ensures text { take result buffer.new ≡ take at buffer.old ++ decimal number }
    ensures low { at ≤ result }
    ensures high { result ≤ at + 20 }
{
    let mut row = [0u8; DIGITS + 1];
    let start = set_digits(&mut row, DIGITS + 1, number);
    let end = at + (DIGITS + 1 - start);
    buffer[at..end].copy_from_slice(&row[start..]);
    end
}

/// Writes the digits of a number at a place, and returns where they end.
#[inline(always)]
pub fn set_decimal(buffer: &mut [u8], at: usize, number: u64) -> usize
    requires { at + 20 ≤ length buffer.old }
    ensures text { take result buffer.new ≡ take at buffer.old ++ decimal number }
    ensures low { at ≤ result }
    ensures high { result ≤ at + 20 }
{
    if number < 100 {
        return set_small(buffer, at, number);
    }
    if number < 10000 {
        let end = set_small(buffer, at, number / 100);
        return set_two(buffer, end, number % 100);
    }
    set_long(buffer, at, number)
}

/// Writes a space and a signed number at a place, and returns where it ends.
pub fn set_signed(buffer: &mut [u8], at: usize, number: i32) -> usize
    requires { at + 22 ≤ length buffer.old }
    ensures text { take result buffer.new ≡ take at buffer.old ++ (codes " " ++ signed_decimal number) }
    ensures low { at ≤ result }
    ensures high { result ≤ at + 22 }
{
    let magnitude = u64::from(number.unsigned_abs());
    buffer[at] = b' ';
    if number < 0 {
        buffer[at + 1] = b'-';
        set_decimal(buffer, at + 2, magnitude)
    } else {
        set_decimal(buffer, at + 1, magnitude)
    }
}

/// Appends a space and a number to `out`.
pub fn put_decimal(out: &mut Vec<u8>, number: u64) -> Result<(), AllocError>
    ensures { Puts result out.old.items (codes " " ++ decimal number) out.new.items }
{
    let mut buffer = [b' '; DIGITS + 1];
    let end = set_decimal(&mut buffer, 1, number);
    out.extend_from_slice(&buffer[..end])
}

/// Appends a space and a signed number to `out`.
pub fn put_signed(out: &mut Vec<u8>, number: i32) -> Result<(), AllocError>
    ensures { Puts result out.old.items (codes " " ++ signed_decimal number) out.new.items }
{
    let mut buffer = [0u8; DIGITS + 2];
    let end = set_signed(&mut buffer, 0, number);
    out.extend_from_slice(&buffer[..end])
}

/// The two hexadecimal digits of each byte, one byte after another.
fn hex_pairs() -> &'static [u8; 512]
    ensures { result.now ≡ flat_map byte_text (range_with_len 0 256) }
{
    b"000102030405060708090a0b0c0d0e0f101112131415161718191a1b1c1d1e1f\
    202122232425262728292a2b2c2d2e2f303132333435363738393a3b3c3d3e3f\
    404142434445464748494a4b4c4d4e4f505152535455565758595a5b5c5d5e5f\
    606162636465666768696a6b6c6d6e6f707172737475767778797a7b7c7d7e7f\
    808182838485868788898a8b8c8d8e8f909192939495969798999a9b9c9d9e9f\
    a0a1a2a3a4a5a6a7a8a9aaabacadaeafb0b1b2b3b4b5b6b7b8b9babbbcbdbebf\
    c0c1c2c3c4c5c6c7c8c9cacbcccdcecfd0d1d2d3d4d5d6d7d8d9dadbdcdddedf\
    e0e1e2e3e4e5e6e7e8e9eaebecedeeeff0f1f2f3f4f5f6f7f8f9fafbfcfdfeff"
}

/// The two hexadecimal digits of a byte.
fn hex_digits(byte: u8) -> (u8, u8)
    ensures high { result.0 ≡ digit_char (byte / 16) }
    ensures low { result.1 ≡ digit_char (byte % 16) }
{
    let digits = hex_pairs();
    let place = 2 * byte as usize;
    (digits[place], digits[place + 1])
}

/// Writes the two digits of each of these bytes.
pub fn set_bytes(place: &mut [u8], bytes: &[u8])
    requires { length place.old ≡ 2 * length bytes.now }
    ensures { place.new ≡ flat_map byte_text bytes.now }
{
    for (i, byte) in bytes.iter().enumerate() {
        let (high, low) = hex_digits(*byte);
        place[2 * i] = high;
        place[2 * i + 1] = low;
    }
}

/// Cuts `out` back to its first bytes if memory was refused.
pub fn cut_back(
    out: &mut Vec<u8>,
    len: usize,
    outcome: Result<(), AllocError>,
) -> Result<(), AllocError>
    ensures outcome { result ≡ outcome }
    ensures ok { OnOk outcome (out.new.items ≡ out.old.items) }
    ensures err { OnErr outcome (out.new.items ≡ take len out.old.items) }
{
    if outcome.is_err() {
        out.truncate(len);
    }
    outcome
}
