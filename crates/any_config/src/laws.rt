//! What the reading is: a law of the definitions, on a function that does nothing.
ghost use Rattle.std.specs.Prelude.{◌≡◌, ℕ, List, Ok, Err};
ghost use Rattle.any_config.specs.Faults.{IsConfigFault};
ghost use Rattle.any_config.specs.Grammar.{IsFile};
ghost use Rattle.any_config.specs.Read.{any_of};
ghost use Rattle.any_config.specs.declared.any_fault.AnyFault.{AnyFault};
ghost use Rattle.any_config.specs.declared.node.AnyNode.{AnyNode};

/// The reading from left to right is the grammar: bytes are read as a group exactly where the grammar has them as that one.
pub fn the_group_reading_is_the_grammar()
    ensures found { (text : List ℕ) (top : AnyNode) → any_of text ≡ Ok top → IsFile text top }
    ensures only { (text : List ℕ) (top : AnyNode) → IsFile text top → any_of text ≡ Ok top }
{}

/// Bytes are no file exactly where a member isn't whole or a `}` closes nothing, and the fault is that of the first such place: all
/// members before it are whole. A group that nothing closes is told only where all that it holds is whole up to the end of the bytes, so
/// it is the innermost.
pub fn a_fault_is_the_first()
    ensures found { (text : List ℕ) (fault : AnyFault) → any_of text ≡ Err fault → IsConfigFault text fault }
    ensures only { (text : List ℕ) (fault : AnyFault) → IsConfigFault text fault → any_of text ≡ Err fault }
{}
