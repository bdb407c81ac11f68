ghost use Rattle.std.specs.Prelude.{◌≡◌, option_map};
ghost use Rattle.std.specs.List.{list_all};
ghost use Rattle.std.specs.Char.{is_ascii_digit};
ghost use Rattle.lt_entry.specs.Views.{numeral_view};
ghost use Rattle.lt_entry.specs.Reading.{starts_well, read_decimal, read_numeral};

/// A number in decimal, with no leading zero and no plus, behind a minus or none. `-0` is 0.
#[derive(Clone, Copy)]
pub struct Numeral {
    pub is_negative: bool,
    pub size: u64,
}

// Whether there are digits, and the first of several is no zero.
fn starts_well(digits: &[u8]) -> bool
    ensures { result ≡ starts_well digits.now }
{
    match digits.split_first() {
        Some((first, rest)) => *first != b'0' || rest.is_empty(),
        None => false,
    }
}

fn are_digits(bytes: &[u8]) -> bool
    ensures { result ≡ list_all is_ascii_digit bytes.now }
{
    bytes.iter().all(|b| b.is_ascii_digit())
}

fn decimal_of(digits: &[u8]) -> Option<u64>
    ensures { result ≡ read_decimal digits.now }
{
    if !starts_well(digits) || !are_digits(digits) {
        return None;
    }
    str::from_utf8(digits).ok()?.parse::<u64>().ok()
}

/// The number that a word writes.
pub fn numeral_of(word: &[u8]) -> Option<Numeral>
    ensures { option_map numeral_view result ≡ read_numeral word.now }
{
    let Some((first, digits)) = word.split_first() else {
        return None;
    };
    let is_negative = *first == b'-';
    match decimal_of(if is_negative { digits } else { word }) {
        Some(size) => Some(Numeral { is_negative, size }),
        None => None,
    }
}
