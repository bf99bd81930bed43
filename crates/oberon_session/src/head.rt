//! The head of a JSON value: what its first token says.

ghost use Rattle.std.specs.Prelude.{◌≡◌, ◌==◌, ◌<◌, IfErr, IfOk, IsTrue, None, false, length, option_map, slice_index, true};
ghost use Rattle.serde_json.specs.Find.{as_u64};
ghost use Rattle.serde_json.specs.Read.{float_of, number_from, number_of};
ghost use Rattle.oberon_session.specs.inner.Taken.{IsAfterHead, one_value};

use crate::SessionFault;
use fast_float::Numeral;
use json::{Reader, Token};

/// What the first token of a value says: how deep the insides of an object or an array may nest, or the whole value.
#[derive(Clone, Copy)]
pub enum Head<'a> {
    Object(usize),
    Array(usize),
    Text(&'a str),
    /// A number: none if it is not a whole number below 2^64.
    Number(Option<u64>),
    /// `true`, `false` or `null`.
    Other,
}

/// Takes the first token of a value that nests at most `depth` deep. Refuses exactly if it begins no value.
pub fn take_head<'a>(reader: &mut Reader<'a>, depth: usize) -> Result<Head<'a>, SessionFault>
    ensures ok { IfOk result (IsAfterHead depth reader.old reader.new) }
    ensures err { IfErr result (λ fault. (fault ≡ SessionFault.Json) × (one_value depth reader.old ≡ None)) }
{
    let Some(token) = reader.next() else {
        return Err(SessionFault::Json);
    };
    match token {
        Token::BeginObject => match depth.checked_sub(1) {
            Some(inside) => Ok(Head::Object(inside)),
            None => Err(SessionFault::Json),
        },
        Token::BeginArray => match depth.checked_sub(1) {
            Some(inside) => Ok(Head::Array(inside)),
            None => Err(SessionFault::Json),
        },
        Token::String(text) => Ok(Head::Text(text)),
        Token::Number(digits) => match whole_number(digits) {
            Some(n) => Ok(Head::Number(n)),
            None => Err(SessionFault::Json),
        },
        Token::Bool(_) | Token::Null => Ok(Head::Other),
        Token::EndObject | Token::EndArray | Token::Key(_) | Token::Bad => Err(SessionFault::Json),
    }
}

/// Returns the number that a numeral of JSON is, or none if it is not a whole number below 2^64. Refuses exactly if it is too large
/// for a float.
fn whole_number(digits: &str) -> Option<Option<u64>>
    ensures { result ≡ option_map as_u64 (number_of digits.now) }
{
    let bytes = digits.as_bytes();
    if has_minus(bytes) {
        negative(&Numeral::scan(&bytes[1..]))
    } else {
        unsigned(&Numeral::scan(bytes))
    }
}

/// Reports whether a numeral has a minus sign.
fn has_minus(bytes: &[u8]) -> bool
    ensures value { result ≡ (slice_index bytes.now 0 == 45) }
    ensures len { IsTrue result → 0 < length bytes.now }
{
    !bytes.is_empty() && bytes[0] == b'-'
}

/// Returns the number of a numeral with no sign, as `whole_number` does.
fn unsigned(numeral: &Numeral<'_>) -> Option<Option<u64>>
    ensures { result ≡ option_map as_u64 (number_from false numeral.now) }
{
    match numeral.to_u64() {
        Some(n) => Some(Some(n)),
        None => fitting(false, numeral),
    }
}

/// Returns the number of a numeral after its minus sign, as `whole_number` does. It is never a whole number: -0 is a float.
fn negative(numeral: &Numeral<'_>) -> Option<Option<u64>>
    ensures { result ≡ option_map as_u64 (number_from true numeral.now) }
{
    if let Some(n) = numeral.to_i64(true) {
        if n < 0 {
            return Some(None);
        }
    }
    fitting(true, numeral)
}

/// Refuses a numeral exactly if it is too large for a float. If it fits, it is no whole number below 2^64.
fn fitting(negative: bool, numeral: &Numeral<'_>) -> Option<Option<u64>>
    ensures { result ≡ option_map as_u64 (float_of negative numeral.now) }
{
    if numeral.to_float::<f64>(negative).is_finite() {
        Some(None)
    } else {
        None
    }
}
