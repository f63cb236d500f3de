//! Paths of the content tree, kept as one text.
ghost use Rattle.std.specs.Prelude.{◌≡◌, ◌≢◌, ◌<◌, ◌-◌, ◌∷◌, ◌++◌, [], List, ℕ, refl, IfOk, IfErr, IfSome, IsTrue, Some, Ok, Err, length, take, option_copied, slice_get, string_bytes};
ghost use Rattle.std.specs.Cmp.{partial_equiv_from_equiv, partial_order_from_agreeing_total};
ghost use Rattle.std.specs.Cmp.Lexicographic.{slice_cmp, lists_total, nat_list_cmp_total};
ghost use Rattle.std.specs.Ordering.{nat_cmp, eq_by_cmp};
ghost use Rattle.std.proofs.lemmas.Cmp.{eq_by_cmp_equiv};
ghost use Rattle.std.specs.Hash as fed;
ghost use Rattle.sp_base.specs.PathExact.{fed_alike};
ghost use Rattle.sp_base.specs.Paths.{most_segments, name_of, seg_ok, path_of, child_of, join_of, parent_of, text_of, unmangled_segs, mangled_of, is_under, is_path, fault_of, path_or_fault};
ghost use Rattle.sp_base.specs.PathTexts.{segs_in, spelling_of};
ghost use Rattle.sp_base.specs.declared.path.PathFault.TheVariants.{NoMemory as out_of_memory};

use crate::order::text_order;
use crate::segments::{
    after_slash, fault_after, fault_in, first_pieces, glued, last_segment, piece_at,
    pieces_mangled, pieces_unmangled, size_fault, slashes, text_under,
};
use crate::{Mem, NoMemory, TextBuf};
use std::alloc::{AllocError, AllocFailed, Global};
use std::cmp::Ordering;
use std::hash::{Hash, Hasher};
use std::marker::Model;

/// Why a text is no path.
#[derive(Clone, Copy, PartialEq, Eq, Debug, Drop)]
pub enum PathFault {
    /// There is no slash at the beginning.
    NotAbsolute,
    /// A segment is empty.
    EmptySegment,
    /// A segment is `.` or `..`.
    DotSegment,
    /// The segment at this place, counted from 0, has more than `LONGEST_SEGMENT` bytes.
    LongSegment(usize),
    /// There are more than `MOST_SEGMENTS` segments.
    TooDeep,
    NoMemory,
}

impl From<NoMemory> for PathFault {
    ghost from_gives = { λ _ e. e ≡ out_of_memory };

    fn from(_fault: NoMemory) -> PathFault {
        PathFault::NoMemory
    }
}

impl From<AllocError> for PathFault {
    ghost from_gives = { λ _ e. e ≡ out_of_memory };

    fn from(_fault: AllocError) -> PathFault {
        PathFault::NoMemory
    }
}

impl<T: Drop> From<AllocFailed<T>> for PathFault {
    ghost from_gives = { λ _ e. e ≡ out_of_memory };

    fn from(_fault: AllocFailed<T>) -> PathFault {
        PathFault::NoMemory
    }
}

/// An absolute path. Contracts see the list of its segments; the root has none.
#[derive(Drop)]
pub struct Path {
    /// A slash before each segment; empty for the root.
    text: String,
}

impl Model for Path {
    ghost use Rattle.std.specs.Prelude.{List, ℕ, string_bytes};

    ghost Value = { List (List ℕ) };

    ghost use Rattle.sp_base.specs.PathTexts.{segs_in, IsPathText};

    ghost view = { λ p. segs_in (string_bytes p.text) };

    ghost invariant = { λ p. IsPathText (string_bytes p.text) };
}

impl Path {
    pub fn root(alloc: Global) -> Path
        ensures { result ≡ [] }
    {
        Path {
            text: String::new(alloc),
        }
    }

    /// The path that a text spells: `/` is the root, and otherwise a slash stands before each segment. The faults are
    /// looked for in the order of the enum.
    pub fn read(alloc: Global, text: &str) -> Result<Path, PathFault>
        ensures ok { IfOk result (λ p. path_of text.now ≡ Ok p) }
        ensures err { IfErr result (λ e. e ≢ PathFault.NoMemory → path_of text.now ≡ Err e) }
    {
        let Some(rest) = after_slash(text) else {
            return Err(PathFault::NotAbsolute);
        };
        if rest.is_empty() {
            return Ok(Path::root(alloc));
        }
        made(fault_after(0, rest), String::from_str(alloc, text)?)
    }

    /// The path with a name after it. A name with a slash in it adds a segment for each of its pieces.
    pub fn child(&self, alloc: Global, name: &str) -> Result<Path, PathFault>
        ensures ok { IfOk result (λ p. child_of self.now name.now ≡ Ok p) }
        ensures err { IfErr result (λ e. e ≢ PathFault.NoMemory → child_of self.now name.now ≡ Err e) }

        // A segment under a path of fewer than `MOST_SEGMENTS` is one segment more.
        ensures whole { IfOk result (λ p. IsTrue (seg_ok name.now) → p ≡ self.now ++ name.now ∷ []) }
        ensures fits { IfErr result (λ e. IsTrue (seg_ok name.now) → length self.now < most_segments → e ≡ PathFault.NoMemory) }
    {
        let fault = fault_after(self.depth(), name);
        made(fault, glued(alloc, self.text.as_str(), "/", name)?)
    }

    /// The segments of a further path after these.
    pub fn join(&self, alloc: Global, rest: &Path) -> Result<Path, PathFault>
        ensures ok { IfOk result (λ p. join_of self.now rest.now ≡ Ok p) }
        ensures err { IfErr result (λ e. e ≢ PathFault.NoMemory → join_of self.now rest.now ≡ Err e) }
    {
        let fault = size_fault(None, self.depth(), rest.depth());
        made(
            fault,
            glued(alloc, self.text.as_str(), "", rest.text.as_str())?,
        )
    }

    /// The path without its last segment. The root's parent is the root.
    pub fn parent(&self, alloc: Global) -> Mem<Path>
        ensures { IfOk result (λ p. p ≡ parent_of self.now) }
    {
        self.first(alloc, self.depth().saturating_sub(1))
    }

    /// The first segments, or all where there are fewer.
    pub fn first(&self, alloc: Global, n: usize) -> Mem<Path>
        ensures { IfOk result (λ p. p ≡ take n self.now) }
    {
        match after_slash(self.text.as_str()) {
            Some(rest) => Ok(Path {
                text: first_pieces(alloc, rest, n)?,
            }),
            None => Ok(Path::root(alloc)),
        }
    }

    /// The path with each segment `_P_Q` read as `P:Q`, where P is jcr, sling, nt or cq and Q is not empty: Sling's mangling of
    /// namespace prefixes in URLs.
    pub fn unmangled(&self, alloc: Global) -> Mem<Path>
        ensures { IfOk result (λ p. p ≡ unmangled_segs self.now) }
    {
        match after_slash(self.text.as_str()) {
            Some(rest) => Ok(Path {
                text: pieces_unmangled(alloc, rest)?,
            }),
            None => Ok(Path::root(alloc)),
        }
    }

    /// The path with each segment `P:Q` written `_P_Q`, where P is jcr, sling, nt or cq and Q is not empty, as in URLs. A segment of
    /// `LONGEST_SEGMENT` bytes grows too long.
    pub fn mangled(&self, alloc: Global) -> Result<Path, PathFault>
        ensures ok { IfOk result (λ p. mangled_of self.now ≡ Ok p) }
        ensures err { IfErr result (λ e. e ≢ PathFault.NoMemory → mangled_of self.now ≡ Err e) }
    {
        match after_slash(self.text.as_str()) {
            Some(rest) => {
                let text = pieces_mangled(alloc, rest)?;
                made(fault_in(text.as_str()), text)
            }
            None => Ok(Path::root(alloc)),
        }
    }

    pub fn duplicate(&self, alloc: Global) -> Mem<Path>
        ensures { IfOk result (λ p. p ≡ self.now) }
    {
        Ok(Path {
            text: String::from_str(alloc, self.text.as_str())?,
        })
    }

    /// The text that spells the path.
    pub fn text(&self, alloc: Global) -> Mem<TextBuf>
        ensures { IfOk result (λ t. t ≡ text_of self.now) }
    {
        TextBuf::of(alloc, self.as_text())
    }

    /// The text that spells the path, lent.
    pub fn as_text(&self) -> &str
        ensures { result.now ≡ text_of self.now }
    {
        if self.text.is_empty() {
            "/"
        } else {
            self.text.as_str()
        }
    }

    /// A slash before each segment: the text, but empty for the root.
    pub fn spelling(&self) -> &str
        ensures spelled { result.now ≡ spelling_of self.now }
        ensures segments { segs_in result.now ≡ self.now }
    {
        self.text.as_str()
    }

    /// How many segments there are, at most `MOST_SEGMENTS`.
    pub fn depth(&self) -> usize
        ensures depth { result ≡ length self.now }
        ensures valid { IsTrue (is_path self.now) }
    {
        slashes(self.text.as_str())
    }

    /// The last segment, which names what is at the path; empty for the root.
    pub fn name(&self) -> &str
        ensures name { result.now ≡ name_of self.now }
        ensures valid { IsTrue (is_path self.now) }
    {
        match last_segment(self.text.as_str()) {
            Some(segment) => segment,
            None => "",
        }
    }

    /// The last segment; the root has none.
    pub fn last(&self) -> Option<&str>
        ensures value { option_copied result ≡ slice_get self.now (length self.now - 1) }
        ensures segment { IfSome result (λ name. IsTrue (seg_ok name.now)) }
    {
        last_segment(self.text.as_str())
    }

    /// Whether the path begins with all segments of the other.
    pub fn is_under(&self, other: &Path) -> bool
        ensures { result ≡ is_under self.now other.now }
    {
        text_under(self.text.as_bytes(), other.text.as_bytes())
    }

    /// The segment at a place, counted from 0.
    pub fn seg(&self, n: usize) -> Option<&str>
        ensures { option_copied result ≡ slice_get self.now n }
    {
        match after_slash(self.text.as_str()) {
            Some(rest) => piece_at(rest, n),
            None => None,
        }
    }
}

impl PartialEq for Path {
    ghost eq = { eq_by_cmp (slice_cmp (slice_cmp nat_cmp)) };

    ghost laws = { partial_equiv_from_equiv (eq_by_cmp_equiv (lists_total nat_list_cmp_total)) };

    fn eq(&self, other: &Path) -> bool {
        self.cmp(other).is_eq()
    }
}

impl Eq for Path {
    ghost laws = { eq_by_cmp_equiv (lists_total nat_list_cmp_total) };
}

// The text as std hashes one.
impl Hash for Path {
    ghost hash_input = { λ p. fed.str (spelling_of p) };

    ghost respects_eq = { fed_alike };

    fn hash<H: Hasher>(&self, state: &mut H) {
        self.text.as_str().hash(state);
    }
}

impl PartialOrd for Path {
    ghost partial_cmp = { λ x y. Some (slice_cmp (slice_cmp nat_cmp) x y) };

    ghost laws = { partial_order_from_agreeing_total (slice_cmp (slice_cmp nat_cmp)) (lists_total nat_list_cmp_total) (λ x y. refl) (λ x y. refl) };

    fn partial_cmp(&self, other: &Path) -> Option<Ordering> {
        Some(self.cmp(other))
    }
}

/// Paths are ordered segment by segment, and segments by their bytes: a path stands right before all that is below it. The order of
/// the texts' bytes is another, in which `/a-b` stands before `/a/b`.
impl Ord for Path {
    ghost cmp = { slice_cmp (slice_cmp nat_cmp) };

    ghost total = { lists_total nat_list_cmp_total };

    ghost matches_partial_cmp = { λ x y. refl };

    ghost matches_eq = { λ x y. refl };

    fn cmp(&self, other: &Path) -> Ordering {
        text_order(self.text.as_bytes(), other.text.as_bytes())
    }
}

// The path that a text spells, unless there is a fault.
fn made(fault: Option<PathFault>, text: String) -> Result<Path, PathFault>
    requires fault { fault ≡ fault_of (segs_in (string_bytes text)) }
    requires whole { spelling_of (segs_in (string_bytes text)) ≡ string_bytes text }
    ensures { result ≡ path_or_fault (segs_in (string_bytes text)) }
{
    match fault {
        Some(fault) => Err(fault),
        None => Ok(Path { text }),
    }
}
