//! Laws of lookup and of changes, over every log.

ghost use Rattle.std.specs.Prelude.{◌≡◌, ◌<◌, ◌≤◌, ℕ, length, None, true};
ghost use Rattle.msg_names.specs.declared.value.ClassRef.{ClassRef};
ghost use Rattle.msg_tables.specs.Laws.{AddedMethodIsFound, AttachedClassMethodIsFound, AttachedMethodIsFound};
ghost use Rattle.msg_tables.specs.Laws.{ChainEndsAtRoot, ChangeAffectsNoMore, ClassInherits, FirstIsSeenBelowSecond};
ghost use Rattle.msg_tables.specs.Laws.{LastListWins, ListedClassIsAsDeep, MadeClassChangesNoOther};
ghost use Rattle.msg_tables.specs.Laws.{OneMethodExchangedIsUnchanged, OneMethodIsOneImplementation};
ghost use Rattle.msg_tables.specs.Laws.{ReplacedMethodIsFound, RootMetaclassIsBelowItsClass};
ghost use Rattle.msg_tables.specs.Laws.{SecondIsSeenBelowFirst, SetMethodIsSeenBelow, SuperclassStays};
ghost use Rattle.msg_tables.specs.Log.{Log, BeginsWith, lookup, holder};
ghost use Rattle.msg_tables.specs.Opening.{HasClassesOf};
ghost use Rattle.msg_tables.specs.Origin.{IsSound, last_imp};
ghost use Rattle.msg_tables.specs.Refusal.{IsLog, refusal, no_class};
ghost use Rattle.msg_tables.specs.Stands.{StandsAt};
ghost use Rattle.msg_tables.specs.View.{TablesView};
ghost use Rattle.msg_tables.specs.declared.change.Change.{Change};

/// A class reference that an accepted change doesn't affect finds what it found before.
pub fn a_change_affects_no_more()
    ensures { ChangeAffectsNoMore }
{}

/// What a log of accepted changes begins with is such a log too: each earlier point of a log is a
/// log.
pub fn an_earlier_point_is_a_log()
    ensures { (h g : Log) → BeginsWith h g → IsLog h → IsLog g }
{}

/// A change is accepted only after fewer changes than the limit.
pub fn an_accepted_change_is_within_the_limit()
    ensures { (h : Log) (x : Change) → refusal h x ≡ None → length h.changes < h.origin.limits.changes }
{}

/// A lookup finds an implementation that exists, or forwarding.
pub fn a_found_implementation_is_listed()
    ensures { (h : Log) (c : ClassRef) (s : ℕ) → IsSound h.origin → IsLog h → lookup h c s ≤ last_imp h.origin.counts }
{}

/// Tables have as many classes as the origin of their log, and the same counts.
pub fn tables_are_of_their_origin()
    ensures classes { (tables : TablesView) (h : Log) → StandsAt tables h → HasClassesOf h.origin tables }
    ensures counts { (tables : TablesView) (h : Log) → StandsAt tables h → tables.counts ≡ h.origin.counts }
{}

/// Before a class is made, lookups from it and from its metaclass return forwarding.
pub fn a_class_that_is_not_made_forwards()
    ensures { (h : Log) (c : ClassRef) (s : ℕ) → no_class h c ≡ true → lookup h c s ≡ 0 }
{}

/// Making a class changes no lookups except those from it and from its metaclass.
pub fn a_made_class_changes_no_other()
    ensures { MadeClassChangesNoOther }
{}

/// A listed class keeps its superclass, and so does its metaclass.
pub fn a_superclass_stays()
    ensures { SuperclassStays }
{}

/// The chain of a class that is present ends at a root class.
pub fn a_chain_ends_at_a_root_class()
    ensures { ChainEndsAtRoot }
{}

/// The depth of a listed class in its chain follows from its superclasses, whatever was changed.
pub fn a_listed_class_is_as_deep_as_it_was()
    ensures { ListedClassIsAsDeep }
{}

/// If no method is found, the result is forwarding.
pub fn no_method_forwards()
    ensures { (h : Log) (c : ClassRef) (s : ℕ) → holder h c s ≡ None → lookup h c s ≡ 0 }
{}

/// Two class references that find a method at the same place find the same implementation.
pub fn one_method_is_one_implementation()
    ensures { OneMethodIsOneImplementation }
{}

/// A class inherits the methods that it doesn't have itself.
pub fn a_class_inherits()
    ensures { ClassInherits }
{}

/// The superclass of a root metaclass is its own class.
pub fn a_root_metaclass_is_below_its_class()
    ensures { RootMetaclassIsBelowItsClass }
{}

/// A method that was added is found.
pub fn an_added_method_is_found()
    ensures { AddedMethodIsFound }
{}

/// After `Replace` the class itself has the implementation, whatever it inherited.
pub fn a_replaced_method_is_found()
    ensures { ReplacedMethodIsFound }
{}

/// All class references that find a method at a place find the implementation that is set there.
pub fn a_set_method_is_seen_below()
    ensures { SetMethodIsSeenBelow }
{}

/// The same holds for two methods that were exchanged.
pub fn exchanged_methods_are_seen_below()
    ensures first { SecondIsSeenBelowFirst }
    ensures second { FirstIsSeenBelowSecond }
{}

/// A method that is exchanged with itself stays the same.
pub fn one_method_exchanged_is_unchanged()
    ensures { OneMethodExchangedIsUnchanged }
{}

/// Of attached methods with one selector the earlier is found, whatever the class had.
pub fn an_attached_method_is_found()
    ensures class { AttachedMethodIsFound }
    ensures metaclass { AttachedClassMethodIsFound }
{}

/// Among the method lists of a class reference that have a method with a selector, the list that is
/// attached last wins: a category's over the class's. Later lists without such a method change
/// nothing.
pub fn the_last_list_wins()
    ensures { LastListWins }
{}
