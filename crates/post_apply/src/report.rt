//! What a POST answers.
use sp_base::Path;

/// What is told of a POST that isn't refused.
#[derive(Drop)]
pub struct PostReport {
    /// The target, or the goal of a copy or a move, is new: the answer is 201, else 200.
    pub created: bool,
    /// The node that was made or modified, the goal of a copy or a move, or the target.
    pub path: Path,
}
