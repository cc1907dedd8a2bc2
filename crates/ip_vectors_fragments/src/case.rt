//! Cases of a file of test vectors.
use crate::bytes::Names;
use crate::text::Line;
use std::alloc::Global;

/// A case: the names of bytes before it, and its steps.
#[derive(Clone, Copy)]
pub(crate) struct Case<'a> {
    pub(crate) alloc: Global,
    pub(crate) names: &'a Names<'a>,
    pub(crate) steps: &'a [Line<'a>],
}
