//! Numbers and fields from bytes: functions, since `u32` and `Field` are of other crates, where `TryFrom<&[u8]>` would have to stand.

ghost use Rattle.std.specs.Prelude.{◌≡◌};
ghost use Rattle.text.specs.Numerals.{digits_value, number_of, field_of};

use lines::field::Field;

/// The largest number of a field in a text. Admission has the same limit for tables that come from no text.
const LAST_FIELD: u32 = 95;

/// The number that the bytes write in decimal.
pub(crate) fn number_of(part: &[u8]) -> Option<u32>
    ensures { result ≡ number_of part.now }
{
    match part {
        [] | [b'0', _, ..] => None,
        digits => digits_value(digits),
    }
}

/// The field that the bytes name.
pub(crate) fn field_of(part: &[u8]) -> Option<Field>
    ensures { result ≡ field_of part.now }
{
    let [b'f', digits @ ..] = part else {
        return None;
    };
    match number_of(digits)? {
        n @ 0..=LAST_FIELD => Some(Field(n as u8)),
        _ => None,
    }
}

/// The number that the bytes write if they are digits alone, leading zeros and none at all included.
// Not `parse`, which takes a sign and is for texts of characters.
#[tactic(auto, using(crate::proofs::Digits::value_from_is))]
fn digits_value(part: &[u8]) -> Option<u32>
    ensures { result ≡ digits_value part.now }
{
    let mut n = 0u32;
    for b in part {
        let digit = (*b as char).to_digit(10)?;
        n = n.checked_mul(10)?.checked_add(digit)?;
    }
    Some(n)
}
