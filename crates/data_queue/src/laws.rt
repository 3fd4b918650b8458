//! Laws of the definitions, as the contracts of functions.
ghost use Rattle.data_queue.specs.Statements.{PutsLast, GetsFirst, CountsLength, ZerosAreEmpty, DependsOnOwnWords, ChangesOwnWords, RepliesTell, StaysBeside};

/// What the calls do to the contents, a plain list: a put that answers `Added` appends its value, and one that
/// answers `NoRoom` changes nothing; a get takes the first value, and answers None exactly where there is
/// none. Both leave the queue well formed. The length is that of the list. So each reply tells what was done.
pub fn contents_change()
    ensures puts { PutsLast }
    ensures gets { GetsFirst }
    ensures counts { CountsLength }
    ensures tells { RepliesTell }
{}

/// A well-formed queue is a matter of its own words: a memory of zeros has it, empty; it stays well formed
/// where its own words stay; and the calls change no other word. So a queue beside has what it had.
pub fn queues_are_apart()
    ensures empty { ZerosAreEmpty }
    ensures apart { DependsOnOwnWords }
    ensures within { ChangesOwnWords }
    ensures beside { StaysBeside }
{}
