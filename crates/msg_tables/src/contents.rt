//! What the tables hold: the methods of a class reference, and the classes.

ghost use Rattle.std.specs.Prelude.{◌<◌, length};
ghost use Rattle.msg_tables.specs.Contents.{AreClasses, HasMethods};
ghost use Rattle.msg_tables.specs.Stands.{AtLog};

use crate::tables::Tables;
use msg_names::{ClassRef, ImpRef, Selector};

impl Tables {
    /// The methods that a class reference has itself, oldest first. Of several methods with one
    /// selector a lookup finds the last.
    pub fn methods(&self, class: ClassRef) -> &[(Selector, ImpRef)]
        requires class { class.class < length self.now.supers }
        ensures { AtLog self.now (λ h. HasMethods h class result.now) }
    {
        self.lists.rows(class.slot())
    }

    /// The classes that are present, each after its superclass.
    pub fn classes(&self) -> &[u32]
        ensures { AtLog self.now (λ h. AreClasses h result.now) }
    {
        &self.order
    }
}
