//! What the blocks of a script are written in.

use crate::piece::Frame;
use htl_expr::Variables;

/// What blocks are written in: the variables, and the rounds that they come from, all lent.
#[derive(Clone, Copy, Drop)]
pub struct Setting<'v, 'a> {
    pub vars: &'v Variables<'v>,
    pub frame: &'v Frame<'a>,
}
