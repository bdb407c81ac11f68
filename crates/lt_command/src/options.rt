//! Which options stand among words.

ghost use Rattle.std.specs.Prelude.{◌≡◌, map};
ghost use Rattle.std.specs.List.{list_any};
ghost use Rattle.std.specs.Str.{bytes_eq};
ghost use Rattle.lt_command.specs.Parts.{has_name, stand_once};
ghost use Rattle.lt_command.specs.Views.{setting_in};

use crate::parts::Setting;

// Whether an option has the name.
fn has_option(options: &[Setting], name: &str) -> bool
    ensures { result ≡ list_any (λ option. has_name name.now (setting_in option)) options.now }
{
    options.iter().any(|option| option.name == name)
}

// Whether the word is one of the names.
fn is_among(word: &str, names: &[&str]) -> bool
    ensures { result ≡ list_any (λ name. bytes_eq word.now name.now) names.now }
{
    names.iter().any(|name| word == *name)
}

/// Whether each option has one of the names, and none stands twice. It calls itself at most once for each name.
#[tactic(auto, using(crate::proofs::Names::is_among_map, crate::proofs::Names::list_any_map))]
pub fn stand_once(names: &[&str], options: &[Setting]) -> bool
    ensures { result ≡ stand_once (map (λ name. name.now) names.now) (map setting_in options.now) }
{
    match options.split_first() {
        Some((option, rest)) => {
            is_among(option.name, names)
                && !has_option(rest, option.name)
                && stand_once(names, rest)
        }
        None => true,
    }
}
