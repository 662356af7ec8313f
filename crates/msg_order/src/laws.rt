//! Laws of depths.

ghost use Rattle.msg_order.specs.Laws.{RootHasDepth0, ClassIsOneDeeper, ChainsEndWhereOrdered, ClassesHaveOrder};
ghost use Rattle.msg_order.specs.Laws.{EndlessChainHasClassAboveItself, ClassAboveItselfIsEndlessChain};

/// Nothing is above a root class.
pub fn a_root_class_has_depth_0()
    ensures { RootHasDepth0 }
{}

/// If every chain ends, one class more is above a class than above its superclass.
pub fn a_class_is_one_deeper_than_its_superclass()
    ensures { ClassIsOneDeeper }
{}

/// If superclasses come first, every chain ends.
pub fn chains_end_where_superclasses_come_first()
    ensures { ChainsEndWhereOrdered }
{}

/// If every chain ends, the classes have an order in which each comes after its superclass.
pub fn classes_have_an_order()
    ensures { ClassesHaveOrder }
{}

/// Some chain doesn't end exactly if a class is above itself.
pub fn a_chain_without_end_is_a_class_above_itself()
    ensures above { EndlessChainHasClassAboveItself }
    ensures cycle { ClassAboveItselfIsEndlessChain }
{}
