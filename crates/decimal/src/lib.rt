// Numbers as text: read from the front of a slice, and written into one.
#![tactic(auto)]

ghost use Rattle.std.specs.Prelude.{◌+◌, ◌≤◌, length};
ghost use Rattle.decimalform.specs.Decimal.{natural_text, integer_text, read_digits, at_most, read_natural, negated, unsigned, read_integer, largest_number, largest_magnitude};
ghost use Rattle.decimalform.specs.Stored.{Stored};
ghost use Rattle.decimal.specs.Answers.{GivesNumber};

// The largest number of signed 32 bits, and the largest magnitude after a minus.
pub const LARGEST: u32 = 2147483647;

const LARGEST_MAGNITUDE: u32 = 2147483648;

// A value and how many bytes it took from the front of a text.
#[derive(Clone, Copy)]
pub struct Read<T> {
    pub value: T,
    pub used: usize,
}

// The digits at the front, while their value is at most the limit.
fn read_digits(text: &[u8], limit: u32) -> Option<Read<u32>>
    ensures { GivesNumber result text.now (at_most limit (read_digits 0 text.now)) }
{
    let most = u64::from(limit);
    let mut value: u64 = 0;
    for (i, b) in text.iter().enumerate() {
        if !b.is_ascii_digit() {
            return Some(Read {
                value: value as u32,
                used: i,
            });
        }
        let next = value * 10 + u64::from(*b - b'0');
        if most < next {
            return None;
        }
        value = next;
    }
    Some(Read {
        value: value as u32,
        used: text.len(),
    })
}

// A number of at most the limit.
pub fn read_natural(text: &[u8], limit: u32) -> Option<Read<u32>>
    ensures { GivesNumber result text.now (read_natural limit text.now) }
{
    match text {
        [b'0', ..] => Some(Read { value: 0, used: 1 }),
        [b'1'..=b'9', ..] => read_digits(text, limit),
        _ => None,
    }
}

// What stands after a minus: a number that is not 0.
fn read_negative(text: &[u8]) -> Option<Read<i32>>
    ensures { GivesNumber result text.now (negated (read_natural largest_magnitude text.now)) }
{
    let m = read_natural(text, LARGEST_MAGNITUDE)?;
    if m.value == 0 {
        return None;
    }
    Some(Read {
        value: -i64::from(m.value) as i32,
        used: m.used,
    })
}

fn read_unsigned(text: &[u8]) -> Option<Read<i32>>
    ensures { GivesNumber result text.now (unsigned (read_natural largest_number text.now)) }
{
    let m = read_natural(text, LARGEST)?;
    Some(Read {
        value: m.value as i32,
        used: m.used,
    })
}

// A signed 32-bit number.
pub fn read_integer(text: &[u8]) -> Option<Read<i32>>
    ensures { GivesNumber result text.now (read_integer text.now) }
{
    match text {
        [] => None,
        [b'-', rest @ ..] => {
            let z = read_negative(rest)?;
            Some(Read {
                value: z.value,
                used: z.used + 1,
            })
        }
        _ => read_unsigned(text),
    }
}

// Writes n from `at` on, and answers where it ends.
pub fn put_natural(out: &mut [u8], at: usize, n: u64) -> usize
    requires { at + length (natural_text n) ≤ length out.old }
    ensures { Stored out.old out.new at result (natural_text n) }
{
    if n < 10 {
        out[at] = b'0' + n as u8;
        return at + 1;
    }
    let end = put_natural(&mut *out, at, n / 10);
    out[end] = b'0' + (n % 10) as u8;
    end + 1
}

// Writes z from `at` on, and answers where it ends.
pub fn put_integer(out: &mut [u8], at: usize, z: i32) -> usize
    requires { at + length (integer_text z) ≤ length out.old }
    ensures { Stored out.old out.new at result (integer_text z) }
{
    let m = u64::from(z.unsigned_abs());
    if z < 0 {
        out[at] = b'-';
        return put_natural(out, at + 1, m);
    }
    put_natural(out, at, m)
}
