//! The numbers of errors in lines.
ghost use Rattle.std.specs.Prelude.{◌≡◌, ◌<◌};
ghost use Rattle.gs1_c.specs.Status.{IsStatus};
ghost use Rattle.gs1_c.specs.inner.Status.{number_at_front};

/// The number of one or two digits at the front of a text.
fn number_at_front(text: &[u8]) -> u32
    ensures { result ≡ number_at_front text.now }
{
    match text {
        [first, second, ..] if first.is_ascii_digit() && second.is_ascii_digit() => {
            10 * u32::from(*first - b'0') + u32::from(*second - b'0')
        }
        [first, ..] if first.is_ascii_digit() => u32::from(*first - b'0'),
        _ => 0,
    }
}

/// The number of the error in a line, or 0.
pub fn status_of(line: &[u8]) -> u32
    ensures { IsStatus line.now result }
{
    match line.strip_prefix(b"refused ") {
        Some(rest) => number_at_front(rest),
        None => 0,
    }
}
