//! What the rules of a dispatcher are in the words of their documentation: laws of the definitions, on functions that do nothing.
ghost use Rattle.std.specs.Prelude.{◌≡◌, ◌↔◌, ◌<◌, ◌^◌, ℕ, Contains, Err, Ok, Some, length, slice_get};
ghost use Rattle.sp_base.specs.Texts.{Segments, Text};
ghost use Rattle.any_config.specs.Farms.{decimal, farm_of};
ghost use Rattle.any_config.specs.declared.farm.Farm.{Farm};
ghost use Rattle.any_config.specs.declared.farm_fault.FarmFault.{FarmFault};
ghost use Rattle.any_config.specs.declared.node.AnyNode.{AnyNode};
ghost use Rattle.cover_rules.specs.Coverage.{touched_of};
ghost use Rattle.cover_rules.specs.declared.invalidation.Invalidation.{Invalidation};
ghost use Rattle.rule_laws.specs.Alike.{AreFilesAlike};
ghost use Rattle.rule_laws.specs.FarmFaults.{IsFarmFault};
ghost use Rattle.rule_laws.specs.FarmTable.{IsFarmOf};
ghost use Rattle.rule_laws.specs.Numbers.{WritesNumber};
ghost use Rattle.rule_laws.specs.Touched.{IsTouched};

/// The farm of a file is its table: a farm is that of a file exactly where it has what each row of the table says.
pub fn the_farm_is_its_table()
    ensures found { (top : AnyNode) (farm : Farm) → farm_of top ≡ Ok farm → IsFarmOf top farm }
    ensures only { (top : AnyNode) (farm : Farm) → IsFarmOf top farm → farm_of top ≡ Ok farm }
{}

/// A file has no farm exactly where a row of the table is at fault, and its fault is that of the first such row, in the order of the table and
/// of the entries of each list.
pub fn the_first_fault_is_told()
    ensures found { (top : AnyNode) (fault : FarmFault) → farm_of top ≡ Err fault → IsFarmFault top fault }
    ensures only { (top : AnyNode) (fault : FarmFault) → IsFarmFault top fault → farm_of top ≡ Err fault }
{}

/// A text is a number of the table exactly where it is that number's digits, without a leading zero, and the number is at most the greatest
/// that is asked for.
pub fn a_number_is_its_digits()
    ensures { (most n : ℕ) (text : Text) → most < 2 ^ 64 → (decimal most text ≡ Some n) ↔ WritesNumber most text n }
{}

/// Whatever else stands in a file changes nothing: two files whose members that are looked for are alike, level by level, give one farm, or one
/// fault. Of each name that is looked for in a group its first member counts, and any others are passed over; entries count in turn, whatever
/// their names.
pub fn other_members_change_nothing()
    ensures { (top other : AnyNode) → AreFilesAlike top other → farm_of top ≡ farm_of other }
{}

/// An invalidation touches exactly the folders above the handle, from the document root down to the level, as far as pages can lie in them,
/// in this order and each once.
pub fn touched_folders_are_above_the_handle()
    ensures folders { (level : ℕ) (inv : Invalidation) (folder : Segments) → Contains (touched_of level inv) folder ↔ IsTouched level inv folder }
    ensures order { (level : ℕ) (inv : Invalidation) (k : ℕ) (folder : Segments) → slice_get (touched_of level inv) k ≡ Some folder → length folder ≡ k }
{}
