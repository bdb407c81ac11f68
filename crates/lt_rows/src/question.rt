//! What is asked of the texts of rows.

use crate::stop::Stop;
use crate::{
    annotations, answers, covers, expressions, faults, known, numbers, printed, replays, rules,
    table, tokens, units,
};
use lt_model::DataModel;
use std::alloc::Global;

/// A question of a row file; the page `docs/ROWS.md` has each with its answers.
#[derive(Clone, Copy)]
pub enum Question<'a> {
    Tokens,
    TokenCount,
    Nests,
    Places,
    /// Where these names are in scope.
    Expression(&'a str),
    ExpressionSize(&'a str),
    Spots,
    Nodes,
    WeighedSpots,
    Prefixes,
    Canonical,
    Erased,
    ErasedLength,
    Purity,
    Rule(DataModel),
    RulePlace(DataModel),
    TypeOf(DataModel),
    Types(DataModel),
    Layout(DataModel),
    Constant(DataModel),
    CoverageFile,
    CoverageMerge,
    /// With the labels that these options ask for.
    Annotate(&'a str),
    /// The same past a fault outside.
    AnnotatePastFault(&'a str),
    /// The line that tells how a command ends.
    Answer,
    /// In this model, with so many ticks a run.
    Replay(DataModel, u64),
    Operator(DataModel),
    Conversion(DataModel),
    Promotion(DataModel),
    CommonType(DataModel),
    Sum,
    Product,
    Join,
    Meet,
    Refine,
    Results(DataModel),
}

fn model_named(name: &str) -> Option<DataModel> {
    match name {
        "ILP32" => Some(DataModel::Ilp32),
        "LP64" => Some(DataModel::Lp64),
        "LLP64" => Some(DataModel::Llp64),
        "ILP32U" => Some(DataModel::Ilp32U),
        "LP64U" => Some(DataModel::Lp64U),
        "LLP64U" => Some(DataModel::Llp64U),
        _ => None,
    }
}

impl<'a> Question<'a> {
    /// That of a heading.
    pub fn of_heading(heading: &'a str) -> Option<Question<'a>> {
        match heading.split_once(": ") {
            None => Question::alone(heading),
            Some(("expression", names)) => Some(Question::Expression(names)),
            Some(("expression size", names)) => Some(Question::ExpressionSize(names)),
            Some(("annotate", options)) => Some(Question::Annotate(options)),
            Some(("annotate past a fault", options)) => Some(Question::AnnotatePastFault(options)),
            Some(("replay", words)) => Question::replay(words),
            Some((name, model)) => Question::in_model(name, model_named(model)?),
        }
    }

    // In a model, with so many ticks.
    fn replay(words: &str) -> Option<Question<'a>> {
        let (model, steps) = words.split_once(' ')?;
        let steps = steps.parse::<u64>().ok()?;
        Some(Question::Replay(model_named(model)?, steps))
    }

    fn alone(name: &str) -> Option<Question<'a>> {
        match name {
            "tokens" => Some(Question::Tokens),
            "token count" => Some(Question::TokenCount),
            "nests" => Some(Question::Nests),
            "places" => Some(Question::Places),
            "expression" => Some(Question::Expression("")),
            "expression size" => Some(Question::ExpressionSize("")),
            "spots" => Some(Question::Spots),
            "nodes" => Some(Question::Nodes),
            "weighed spots" => Some(Question::WeighedSpots),
            "prefixes" => Some(Question::Prefixes),
            "canonical" => Some(Question::Canonical),
            "erased" => Some(Question::Erased),
            "erased length" => Some(Question::ErasedLength),
            "purity" => Some(Question::Purity),
            "coverage file" => Some(Question::CoverageFile),
            "coverage merge" => Some(Question::CoverageMerge),
            "annotate" => Some(Question::Annotate("")),
            "answer" => Some(Question::Answer),
            "sum" => Some(Question::Sum),
            "product" => Some(Question::Product),
            "join" => Some(Question::Join),
            "meet" => Some(Question::Meet),
            "refine" => Some(Question::Refine),
            _ => None,
        }
    }

    fn in_model(name: &str, model: DataModel) -> Option<Question<'a>> {
        match name {
            "rule" => Some(Question::Rule(model)),
            "rule place" => Some(Question::RulePlace(model)),
            "type" => Some(Question::TypeOf(model)),
            "types" => Some(Question::Types(model)),
            "layout" => Some(Question::Layout(model)),
            "constant" => Some(Question::Constant(model)),
            "operator" => Some(Question::Operator(model)),
            "conversion" => Some(Question::Conversion(model)),
            "promotion" => Some(Question::Promotion(model)),
            "common type" => Some(Question::CommonType(model)),
            "results" => Some(Question::Results(model)),
            _ => None,
        }
    }

    /// Whether the answer, which is one word, stands before the text.
    pub fn is_answered_first(self) -> bool {
        matches!(self, Question::Rule(_))
    }

    /// What comes of a text, beside other texts if the question is about these too.
    pub fn answer(self, alloc: Global, text: &[u8], beside: &[u8]) -> Result<Vec<u8>, Stop> {
        match self {
            Question::Tokens => tokens::tokens(alloc, text),
            Question::TokenCount => tokens::count(alloc, text),
            Question::Nests => tokens::nests(alloc, text),
            Question::Places => tokens::places(alloc, text),
            Question::Expression(names) => expressions::expression(alloc, text, names, true),
            Question::ExpressionSize(names) => expressions::expression(alloc, text, names, false),
            Question::Spots => units::spots(alloc, text),
            Question::Nodes => units::nodes(alloc, text),
            Question::WeighedSpots => units::weighed_spots(alloc, text),
            Question::Prefixes => units::prefixes(alloc, text),
            Question::Canonical => printed::canonical(alloc, text),
            Question::Erased => printed::erased(alloc, text),
            Question::ErasedLength => printed::erased_length(alloc, text),
            Question::Purity => printed::purity(alloc, text),
            Question::Rule(model) => rules::rule(alloc, text, model, false),
            Question::RulePlace(model) => rules::rule(alloc, text, model, true),
            Question::TypeOf(model) => known::type_in(alloc, text, beside, model),
            Question::Types(model) => table::types(alloc, text, model),
            Question::Layout(model) => known::layouts(alloc, text, model),
            Question::Constant(model) => table::constant(alloc, text, model),
            Question::CoverageFile => covers::rewritten(alloc, text),
            Question::CoverageMerge => covers::merged(alloc, text),
            Question::Annotate(options) => annotations::annotated(alloc, text, options),
            Question::AnnotatePastFault(options) => faults::ended(alloc, text, options),
            Question::Answer => answers::answered(alloc, text),
            Question::Replay(model, steps) => replays::replayed(alloc, text, model, steps),
            Question::Operator(model) => numbers::operator(alloc, text, model),
            Question::Conversion(model) => numbers::conversion(alloc, text, model),
            Question::Promotion(model) => numbers::promotion(alloc, text, model),
            Question::CommonType(model) => numbers::common_type(alloc, text, model),
            Question::Sum => numbers::sum(alloc, text),
            Question::Product => numbers::product(alloc, text),
            Question::Join => numbers::joined(alloc, text),
            Question::Meet => numbers::common_members(alloc, text),
            Question::Refine => numbers::refined(alloc, text),
            Question::Results(model) => numbers::results(alloc, text, model),
        }
    }
}
