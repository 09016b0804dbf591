/// A flow of a plan: the place of its dataset, and its place among the flows of that one. A view has one
/// flow.
#[derive(Clone, Copy, Debug, PartialEq, Eq)]
pub struct FlowId {
    pub dataset: u32,
    pub flow: u32,
}
