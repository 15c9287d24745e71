//! Bytes as hexadecimal digits, and how many decimal digits a number has.

ghost use Rattle.std.specs.Prelude.{◌≡◌, ◌*◌, ◌<◌, decimal, length, slice_index};
ghost use Rattle.hex.specs.Hex.{encode_lower, lower_digits};

/// The lower case digits.
const DIGITS: &[u8; 16] = b"0123456789abcdef";

/// Writes each of `bytes` to `room` as two lower case hexadecimal digits. `room` must have exactly two bytes for each.
pub fn write_hex(bytes: &[u8], room: &mut [u8])
    requires { length room.old ≡ 2 * length bytes.now }
    ensures { room.new ≡ encode_lower bytes.now }
{
    // A compiler makes the first loop step over eight bytes at once. What is left is cheaper to look up.
    let whole = bytes.len() / 8 * 8;
    'eights: for index in 0..whole {
        let byte = bytes[index];
        room[2 * index] = hex_digit(byte / 16);
        room[2 * index + 1] = hex_digit(byte % 16);
    }
    'rest: for index in whole..bytes.len() {
        let byte = bytes[index];
        room[2 * index] = DIGITS[(byte / 16) as usize];
        room[2 * index + 1] = DIGITS[(byte % 16) as usize];
    }
}

/// Returns the lower case hexadecimal digit of `number`, which must be below 16.
#[inline(always)]
fn hex_digit(number: u8) -> u8
    requires { number < 16 }
    ensures { result ≡ slice_index lower_digits number }
{
    let letter = if number < 10 { 0 } else { b'a' - 10 - b'0' };
    b'0' + number + letter
}

/// Returns how many decimal digits `number` has; 1 for 0. It takes four digits at a time, so that few divisions are made.
#[inline(always)]
pub fn count_digits(number: u64) -> usize
    ensures { result ≡ length (decimal number) }
{
    let mut left = number;
    let mut count = 0;
    while left >= 10_000 {
        left /= 10_000;
        count += 4;
    }
    if left < 10 {
        return count + 1;
    }
    if left < 100 {
        return count + 2;
    }
    if left < 1_000 {
        return count + 3;
    }
    count + 4
}
