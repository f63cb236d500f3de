//! Multipart bodies.
ghost use Rattle.std.specs.Prelude.{◌≡◌, ◌≢◌, ◌≤◌, Ok, Err, IfOk, IfErr, IfSome, length, option_copied};
ghost use Rattle.form_input.specs.Boundaries.{from_mark};
ghost use Rattle.form_input.specs.Lines.{lines_left};
ghost use Rattle.form_input.specs.Multipart as spec;

use crate::boundary::{BoundaryLine, next_mark};
use crate::part::pair_of;
use crate::{Form, FormFault, MOST_PAIRS};
use sp_base::{Mem, TextBuf};
use std::alloc::{AllocError, Global};

fn dash_boundary(alloc: Global, boundary: &[u8]) -> Result<Vec<u8>, AllocError>
    ensures { IfOk result (λ v. v.items ≡ spec.dash_boundary boundary.now) }
{
    let mut dash = Vec::from_slice(alloc, b"--")?;
    dash.extend_from_slice(boundary)?;
    Ok(dash)
}

/// The pairs of a body: a part stands between two boundary lines, and the closing line ends the last. What stands before the first
/// boundary line and after the closing one is passed over.
pub fn read_multipart(alloc: Global, boundary: &[u8], body: &[u8]) -> Result<Form, FormFault>
    ensures ok { IfOk result (λ form. spec.multipart_of boundary.now body.now ≡ Ok form) }
    ensures err { IfErr result (λ e. e ≢ FormFault.NoMemory → spec.multipart_of boundary.now body.now ≡ Err e) }
{
    let dash = dash_boundary(alloc, boundary)?;
    match next_mark(dash.as_slice(), body.len(), body) {
        Some(first) => read_parts(alloc, dash.as_slice(), body.len(), first),
        None => Err(FormFault::BadPart(body.len())),
    }
}

// The pairs of the parts from a boundary line on.
fn read_parts(
    alloc: Global,
    dash: &[u8],
    end: usize,
    first: BoundaryLine,
) -> Result<Form, FormFault>
    requires { IfSome first.after (λ rest. length rest.now ≤ end) }
    ensures ok { IfOk result (λ form. spec.pairs_of end 0 (from_mark dash.now end first.entry) ≡ Ok form) }
    ensures err { IfErr result (λ e. e ≢ FormFault.NoMemory → spec.pairs_of end 0 (from_mark dash.now end first.entry) ≡ Err e) }
{
    let mut form = Form::new(alloc);
    let mut mark = first;
    while !mark.closing {
        let Some(after) = mark.after else {
            return Err(FormFault::BadPart(end));
        };
        let Some(next) = next_mark(dash, end, after) else {
            return Err(FormFault::BadPart(end));
        };
        let Some(pair) = part_before(alloc, &next)? else {
            return Err(FormFault::BadPart(mark.place));
        };
        if form.len() == MOST_PAIRS {
            return Err(FormFault::TooMany);
        }
        form.push(pair)?;
        mark = next;
    }
    Ok(form)
}

// The pair of the part before a boundary line.
#[tactic(auto, unfolding(crate::specs::Multipart::disposition_in))]
fn part_before(alloc: Global, mark: &BoundaryLine) -> Mem<Option<(TextBuf, TextBuf)>>
    ensures { IfOk result (λ o. o ≡ spec.pair_of (lines_left (option_copied mark.now.before))) }
{
    match mark.before {
        Some(part) => pair_of(alloc, part),
        None => Ok(None),
    }
}
