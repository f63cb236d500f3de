//! What a form and a multipart body are: laws of the definitions, on functions that do nothing.
ghost use Rattle.std.specs.Prelude.{◌≡◌, ℕ, List, Ok, Err};
ghost use Rattle.sp_base.specs.Texts.{Pairs, Text};
ghost use Rattle.form_input.specs.declared.fault.FormFault.{FormFault};
ghost use Rattle.form_input.specs.Bodies.{HasPairs};
ghost use Rattle.form_input.specs.BodyFaults.{IsBodyFault};
ghost use Rattle.form_input.specs.FormLaws.{FormsAreRefusedForCauses};
ghost use Rattle.form_input.specs.LineLaws.{AreLinesOf};
ghost use Rattle.form_input.specs.Lines.{lines_text, lines};
ghost use Rattle.form_input.specs.Multipart.{multipart_of};

/// A body reads as pairs exactly where it is a preamble, at most 1,000 parts that each stand after a boundary line and have a pair, a closing
/// boundary line and an epilogue. The lines of a body, each with its end, are the body.
pub fn the_parts_are_the_body()
    ensures found { (boundary body : List ℕ) (pairs : Pairs) → multipart_of boundary body ≡ Ok pairs → HasPairs boundary body pairs }
    ensures only { (boundary body : List ℕ) (pairs : Pairs) → HasPairs boundary body pairs → multipart_of boundary body ≡ Ok pairs }
    ensures lines { (body : List ℕ) → lines_text (lines body) ≡ body }
{}

/// A body is refused exactly for the first fault of its lines: after a preamble and parts that each have a pair comes a part without one, one
/// that no boundary line ends, or the 1,001st with a pair, if a boundary line ends it; or there is no boundary line.
pub fn bodies_are_refused_for_their_first_fault()
    ensures found { (boundary body : List ℕ) (fault : FormFault) → multipart_of boundary body ≡ Err fault → IsBodyFault boundary body fault }
    ensures only { (boundary body : List ℕ) (fault : FormFault) → IsBodyFault boundary body fault → multipart_of boundary body ≡ Err fault }
{}

/// What a form is refused for is a cause of its own: by definition none is out of memory.
pub fn forms_are_refused_for_causes()
    ensures { FormsAreRefusedForCauses }
{}

/// The lines of a body are those, and those alone, that with CR LF between each two are the body and hold no CR LF: what ends a line is in
/// none of them.
pub fn lines_are_cut_at_their_ends()
    ensures found { (text : List ℕ) → AreLinesOf text (lines text) }
    ensures only { (text : List ℕ) (ls : List Text) → AreLinesOf text ls → ls ≡ lines text }
{}
