//! Laws of the machine, over every layout and every list of events that are allowed.
//!
//! They are about the definitions alone, for every lookup function. So they hold for anything that
//! keeps its words by these events. The last laws are about histories of changes, and about the
//! lookup of `msg_tables`.

ghost use Rattle.msg_model.specs.Laws.{EventsKeepSound, FilledIsRead, HolderHasLoaded, LastAffectedIsReached, LastAffectedOfLonger, LookupStaysInLonger, LookupStaysSince, NobodyHoldsCleared, NobodyHoldsInstalled, ReadAgreesSinceHeader, ReadHasSelector, ReaderHolds, RunsAreLawful, RunsAreSound};

/// Every event that isn't refused keeps a sound state sound.
pub fn an_event_keeps_a_state_sound()
    ensures { EventsKeepSound }
{}

/// After every legal run the state is lawful, and its numbers are in range.
pub fn a_legal_run_is_lawful()
    ensures lawful { RunsAreLawful }
    ensures sound { RunsAreSound }
{}

/// No sender holds an array that is installed, or one a word of which is cleared.
pub fn nobody_holds_what_is_given_again()
    ensures install { NobodyHoldsInstalled }
    ensures clear { NobodyHoldsCleared }
{}

/// A sender that holds an array for a class reference has loaded its header word, and none since.
pub fn a_holder_has_loaded_the_header()
    ensures { HolderHasLoaded }
{}

/// Consider a sender whose read isn't refused. It holds an array of some class reference, has
/// loaded the header word of that, and none since. If the word that it reads isn't 0, the word has
/// a selector. Its implementation was looked up for that selector at some point of the history: not
/// before the sender's last header load, and not after the read.
pub fn a_read_agrees_since_its_header_load()
    ensures holds { ReaderHolds }
    ensures entry { ReadHasSelector }
    ensures agrees { ReadAgreesSinceHeader }
{}

/// A word that was filled in stays until its class reference is flushed or gets another array. Each
/// sender whose last header load came before that reads the word at its place.
pub fn a_filled_word_is_read()
    ensures { FilledIsRead }
{}

/// A lookup stays the same since its class reference was last affected: at any point from there on
/// it finds what it finds now.
pub fn a_lookup_stays_since_its_class_was_affected()
    ensures since { LookupStaysSince }
    ensures longer { LookupStaysInLonger }
{}

/// One more change is the last that affects a class reference, or the last is the same as before.
pub fn the_last_change_that_affects_is_counted()
    ensures longer { LastAffectedOfLonger }
    ensures reached { LastAffectedIsReached }
{}
