//! What the values of options say.

ghost use Rattle.std.specs.Prelude.{◌≡◌, option_map};
ghost use Rattle.lt_command.specs.Views.{starts_well};
ghost use Rattle.lt_command.specs.Plan.{char_of, data_model_of, model_of, steps_of, unsigned_model};

use lt_model::DataModel;

const MOST_STEPS: u64 = 10_000_000;

// Whether the first byte is a digit other than 0.
fn starts_well(word: &str) -> bool
    ensures { result ≡ starts_well word.now }
{
    match word.as_bytes().split_first() {
        Some((first, _)) => b'1' <= *first && *first <= b'9',
        None => false,
    }
}

/// The number that the word writes, from 1 to 10,000,000.
pub fn steps_of(word: &str) -> Option<u64>
    ensures { result ≡ steps_of word.now }
{
    if !starts_well(word) {
        return None;
    }
    match word.parse::<u64>() {
        Ok(steps) => if steps <= MOST_STEPS {
            Some(steps)
        } else {
            None
        },
        Err(_) => None,
    }
}

// The model of this name, in which plain `char` is signed.
fn model_of(word: &str) -> Option<DataModel>
    ensures { result ≡ model_of word.now }
{
    if word == "ilp32" {
        Some(DataModel::Ilp32)
    } else if word == "lp64" {
        Some(DataModel::Lp64)
    } else if word == "llp64" {
        Some(DataModel::Llp64)
    } else {
        None
    }
}

// Whether plain `char` is signed.
fn char_of(word: &str) -> Option<bool>
    ensures { result ≡ char_of word.now }
{
    if word == "signed" {
        Some(true)
    } else if word == "unsigned" {
        Some(false)
    } else {
        None
    }
}

// The model of the same sizes in which plain `char` is unsigned.
fn unsigned_model(model: DataModel) -> DataModel
    ensures { result ≡ unsigned_model model }
{
    match model {
        DataModel::Ilp32 => DataModel::Ilp32U,
        DataModel::Lp64 => DataModel::Lp64U,
        DataModel::Llp64 => DataModel::Llp64U,
        _ => model,
    }
}

/// The model that the words of M and C say; without them `lp64` with a signed plain `char`.
pub fn data_model_of(model: Option<&str>, char: Option<&str>) -> Option<DataModel>
    ensures { result ≡ data_model_of (option_map (λ word. word.now) model.entry) (option_map (λ word. word.now) char.entry) }
{
    let model = match model {
        Some(word) => model_of(word)?,
        None => DataModel::Lp64,
    };
    let is_signed = match char {
        Some(word) => char_of(word)?,
        None => true,
    };
    Some(if is_signed {
        model
    } else {
        unsigned_model(model)
    })
}
