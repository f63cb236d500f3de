//! The numbers of made names.
ghost use Rattle.std.specs.Prelude.{◌≡◌, ◌≢◌, ◌⊎◌, ℕ, Some, ◌++◌, ◌∷◌, IfOk, IfSome, length, map, slice_index, slice_index_or, false, true, decimal};
ghost use Rattle.post_apply.specs.Marks.{MarksListed};
ghost use Rattle.post_apply.specs.Names as spec;

use sp_base::{Mem, TextBuf};
use std::alloc::Global;

// Whether no other text spells the same number, if this spells one.
fn is_plain(digits: &str) -> bool
    ensures { result ≡ true → (slice_index digits.now 0 ≢ 43) × (slice_index digits.now 0 ≡ 48 → length digits.now ≡ 1) }
{
    let bytes = digits.as_bytes();
    !bytes.is_empty() && bytes[0] != b'+' && (bytes[0] != b'0' || bytes.len() == 1)
}

// The number that a text spells as a made name does.
fn number_of(digits: &str) -> Option<usize>
    ensures { IfSome result (λ n. digits.now ≡ decimal n) }
{
    if is_plain(digits) {
        digits.parse().ok()
    } else {
        None
    }
}

// What follows a name and `_`.
fn after_name<'a>(name: &str, made: &'a str) -> Option<&'a str>
    ensures { IfSome result (λ rest. made.now ≡ name.now ++ 95 ∷ rest.now) }
{
    made.strip_prefix(name)?.strip_prefix('_')
}

// The number with which a name was made of another.
fn number_in(name: &str, made: &str) -> Option<usize>
    ensures { IfSome result (λ n. made.now ≡ spec.numbered_name name.now n) }
{
    number_of(after_name(name, made)?)
}

// Marks a number, where it is one of the marks'.
fn mark(marks: &mut Vec<bool>, number: Option<usize>)
    ensures { (m : ℕ) → slice_index_or marks.new.items m false ≡ true → (slice_index_or marks.old.items m false ≡ true) ⊎ (number ≡ Some m) }
{
    if let Some(n) = number {
        if n < marks.len() {
            marks[n] = true;
        }
    }
}

/// Numbers with which a name is one of these kids', marked: those below some number.
pub fn marked_numbers(alloc: Global, kids: &[&TextBuf], name: &str, most: usize) -> Mem<Vec<bool>>
    ensures { IfOk result (λ marks. MarksListed (map (λ kid. kid.now) kids.now) name.now marks.items) }
{
    let mut marks = vec![in alloc; false; most]?;
    for kid in kids {
        mark(&mut marks, number_in(name, kid.text()));
    }
    Ok(marks)
}

/// Whether a number is marked.
pub fn is_marked(marks: &[bool], n: usize) -> bool
    ensures { result ≡ slice_index_or marks.now n false }
{
    n < marks.len() && marks[n]
}
