// Escapes of literals; `specs/Strings.antt` says what they stand for.

ghost use Rattle.std.specs.Prelude.{◌≡◌, ◌≤◌, option_map, IfSome};
ghost use Rattle.lt_tree.specs.Strings as strings;

fn is_octal(b: u8) -> bool
    ensures { result ≡ strings.is_octal b }
{
    b'0' <= b && b <= b'7'
}

/// The value of a hexadecimal digit.
pub fn hex_value(b: u8) -> Option<u8>
    ensures value { result ≡ strings.hex_value b }
    ensures small { IfSome result (λ v. v ≤ 15) }
{
    match b {
        b'0'..=b'9' => Some(b - b'0'),
        b'a'..=b'f' => Some(b - b'a' + 10),
        b'A'..=b'F' => Some(b - b'A' + 10),
        _ => None,
    }
}

fn simple_escape(b: u8) -> Option<u8>
    ensures { result ≡ strings.simple_escape b }
{
    match b {
        b'n' => Some(10),
        b't' => Some(9),
        b'r' => Some(13),
        b'a' => Some(7),
        b'b' => Some(8),
        b'f' => Some(12),
        b'v' => Some(11),
        b'\\' | b'\'' | b'"' | b'?' => Some(b),
        _ => None,
    }
}

// The rest of an octal escape of two digits so far: its value and the bytes behind it.
fn third_octal(value: u8, text: &[u8]) -> (u8, &[u8])
    requires { value ≤ 63 }
    ensures { (result.0, result.1.now) ≡ strings.third_octal value text.now }
{
    match text.split_first() {
        None => (value, text),
        Some((b, rest)) => {
            if is_octal(*b) {
                let all = 8 * u16::from(value) + u16::from(*b - b'0');
                ((all % 256) as u8, rest)
            } else {
                (value, text)
            }
        }
    }
}

// The rest of an octal escape of one digit so far.
fn second_octal(value: u8, text: &[u8]) -> (u8, &[u8])
    requires { value ≤ 7 }
    ensures { (result.0, result.1.now) ≡ strings.second_octal value text.now }
{
    match text.split_first() {
        None => (value, text),
        Some((b, rest)) => {
            if is_octal(*b) {
                third_octal(8 * value + (*b - b'0'), rest)
            } else {
                (value, text)
            }
        }
    }
}

// The rest of a hexadecimal escape of one digit so far.
fn second_hex(value: u8, text: &[u8]) -> (u8, &[u8])
    requires { value ≤ 15 }
    ensures { (result.0, result.1.now) ≡ strings.second_hex value text.now }
{
    match text.split_first() {
        None => (value, text),
        Some((b, rest)) => match hex_value(*b) {
            None => (value, text),
            Some(digit) => (16 * value + digit, rest),
        },
    }
}

/// The value of an escape, behind its backslash, and the bytes behind it.
pub fn escape(text: &[u8]) -> Option<(u8, &[u8])>
    ensures { option_map (λ x. (x.0, x.1.now)) result ≡ strings.escape text.now }
{
    let (b, rest) = text.split_first()?;
    if is_octal(*b) {
        return Some(second_octal(*b - b'0', rest));
    }
    if *b == b'x' {
        let (b, rest) = rest.split_first()?;
        return Some(second_hex(hex_value(*b)?, rest));
    }
    Some((simple_escape(*b)?, rest))
}
