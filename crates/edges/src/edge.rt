// An edge, and one of its branches.
use crate::frame::Goal;
use crate::leaf::Ways;
use paths::{Path, Stack};

/// The edge at the end of a path, once it has passed the path's frames.
#[derive(Clone, Copy)]
pub struct Edge {
    pub action: u32,
    pub path: Path,
    /// Its branches, before they pass frames.
    pub(crate) ways: Ways,
    /// The frames that its branches pass: those that were not left behind when the edge was cut.
    pub(crate) frames: Stack,
}

/// A branch of an edge: its weight, the first of its assignments, and where it leads, under frames.
#[derive(Clone, Copy)]
pub struct Branch {
    pub weight: u32,
    pub assignments: u32,
    pub goal: Goal,
    pub(crate) frames: Stack,
}
