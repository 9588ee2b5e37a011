//! A session as data, the three tables that it is saved in, and how they are read: definitions, and the law that reading
//! gives the session back. It computes nothing.
#![tactic(auto)]

ghost use Rattle.nf_saved.specs.Saved.{ReadAreSessions, ReadAreStates, SavedAreRead};

mod fault;

pub use fault::{SavedArtificial, SavedColumn, SavedColumns, SavedFault, SavedSet};

/// The three tables of a saved session are read as that session, and so as no other.
pub fn saved_tables_are_read()
    ensures law { SavedAreRead }
{}

/// What saved tables are read as has a state of the problem, with as many basic columns as its stage has rows. If that
/// state is lexicographically feasible, it is a session, so that it can be saved again.
pub fn read_tables_are_sessions()
    ensures states { ReadAreStates }
    ensures sessions { ReadAreSessions }
{}
