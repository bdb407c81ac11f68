//! What stands in a graph at a number.

ghost use Rattle.std.specs.Prelude.{◌≡◌, option_copied, slice_get};
ghost use Rattle.lt_mach.specs.Stubs.{flat};

use lt_ir::{Code, Graph, LabelInfo, Node};
use lt_model::{Content, Name};

/// The code of a function.
pub fn code_at(graph: &Graph, number: u32) -> Option<&Code>
    ensures { option_copied result ≡ slice_get graph.now.codes number }
{
    graph.codes.as_slice().get(number as usize)
}

/// The node at a place of a code.
pub fn node_at(code: &Code, place: u32) -> Option<&Node>
    ensures { option_copied result ≡ slice_get code.now.nodes place }
{
    code.nodes.as_slice().get(place as usize)
}

/// The label of a number.
pub fn label_at(graph: &Graph, number: u32) -> Option<&LabelInfo>
    ensures { option_copied result ≡ slice_get graph.now.labels number }
{
    graph.labels.as_slice().get(number as usize)
}

/// The name of a function without a body.
pub fn stub_at(graph: &Graph, number: u32) -> Option<&Name>
    ensures { option_copied result ≡ slice_get graph.now.stubs number }
{
    graph.stubs.as_slice().get(number as usize)
}

/// The place at a number, if there is one.
pub fn place_at(places: &[Option<usize>], number: u32) -> Option<usize>
    ensures { result ≡ flat (slice_get places.now number) }
{
    match places.get(number as usize) {
        Some(place) => *place,
        None => None,
    }
}

/// The content at a place, if there is one.
pub fn content_at(contents: &[Content], place: usize) -> Option<Content>
    ensures { result ≡ slice_get contents.now place }
{
    contents.get(place).copied()
}
