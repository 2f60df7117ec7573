// The call that a line names.
use std::str;

#[derive(Clone, Copy)]
pub(crate) enum Call {
    Sheet { style: u64, year: u64 },
    Feast { style: u64, feast: u64, year: u64 },
    Year { style: u64, year: u64 },
}

// The number of a field: 1 to 20 digits, and at most 2^64 - 1.
fn number_of(field: &str) -> Option<u64> {
    // A sign is no digit, though `parse` takes one.
    if field.len() > 20 || !field.bytes().all(|byte| byte.is_ascii_digit()) {
        return None;
    }
    field.parse().ok()
}

// The numbers of exactly two fields.
fn pair_of(fields: &str) -> Option<(u64, u64)> {
    let (first, second) = fields.split_once(' ')?;
    Some((number_of(first)?, number_of(second)?))
}

// None where the line names no call.
pub(crate) fn call_of(line: &[u8]) -> Option<Call> {
    let (word, fields) = str::from_utf8(line).ok()?.split_once(' ')?;
    match word {
        "sheet" => {
            let (style, year) = pair_of(fields)?;
            Some(Call::Sheet { style, year })
        }
        "feast" => {
            let (style, fields) = fields.split_once(' ')?;
            let style = number_of(style)?;
            let (feast, year) = pair_of(fields)?;
            Some(Call::Feast { style, feast, year })
        }
        "year" => {
            let (style, year) = pair_of(fields)?;
            Some(Call::Year { style, year })
        }
        _ => None,
    }
}
