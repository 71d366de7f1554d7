//! The input of `audit`: the scenario's length and a line feed, the scenario, and after it the printed report.
#![tactic(auto)]

ghost use Rattle.audit_input.specs.Handed.{Hands, HandsNothing, NamesNoLength};
ghost use Rattle.std.specs.Prelude.{◌≡◌, ◌<◌, IfNone, IfSome, decimal};

use itoa::Buffer;
use memchr::memchr;

/// The first length that has more than 8 digits.
const TOO_LONG: u32 = 100_000_000;

/// A scenario and a report, as the bytes of one input.
#[derive(Clone, Copy)]
pub struct Handed<'a> {
    /// The scenario, of as many bytes as the input's first line says.
    pub scenario: &'a [u8],
    /// Everything after it.
    pub report: &'a [u8],
}

/// Splits an input into its scenario and its report. The input begins with the number of the scenario's bytes, in 1 to
/// 8 digits with no leading zero, and a line feed. Returns `None` exactly if it does not, or has fewer bytes.
pub fn split_input(bytes: &[u8]) -> Option<Handed>
    ensures found { IfSome result
        (λ handed. Hands bytes.now handed.scenario.now handed.report.now) }
    ensures none { IfNone result (HandsNothing bytes.now) }
{
    let Some(end) = memchr(b'\n', bytes) else {
        return None;
    };
    let Some(length) = length_named(&bytes[..end]) else {
        return None;
    };
    let rest = &bytes[end + 1..];
    if rest.len() < length as usize {
        return None;
    }
    let (scenario, report) = rest.split_at(length as usize);
    Some(Handed { scenario, report })
}

/// The number below 100,000,000 whose decimal text this is; `None` if there is none.
fn length_named(text: &[u8]) -> Option<u32>
    ensures found { IfSome result (λ n. (text.now ≡ decimal n) × (n < 100000000)) }
    ensures none { IfNone result (NamesNoLength text.now) }
{
    let Ok(text) = std::str::from_utf8(text) else {
        return None;
    };
    let Ok(number) = text.parse::<u32>() else {
        return None;
    };
    if TOO_LONG <= number {
        return None;
    }
    if Buffer::new().format(number) != text {
        return None;
    }
    Some(number)
}
