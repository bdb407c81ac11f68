//! What a command line asks for.

use lt_model::DataModel;
use lt_objectives::Criteria;

/// A replay of a suite on a text, both named by files, with a specification of the entry and an old coverage where they are named.
#[derive(Clone, Copy)]
pub struct Replay<'a> {
    pub file: &'a str,
    pub suite: &'a str,
    pub entry: Option<&'a str>,
    pub model: DataModel,
    pub steps: u64,
    pub cover: Option<&'a str>,
}

/// The labels of criteria for a text, which is named by its file.
#[derive(Clone, Copy)]
pub struct Annotate<'a> {
    pub file: &'a str,
    pub criteria: Criteria,
    pub model: DataModel,
}

#[derive(Clone, Copy)]
pub enum Command<'a> {
    Replay(Replay<'a>),
    /// The file of a coverage, to be written in the latest version.
    Convert(&'a str),
    Annotate(Annotate<'a>),
}
