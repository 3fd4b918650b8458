//! Laws of the definitions, as the contracts of functions.
ghost use Rattle.data_cells.specs.Statements.{AddsToSum, InsertsKey, RemovesKey, KeysAscend, ReachesOnce, ZerosAreEmpty, DependsOnOwnWords, ChangesOwnWords, AddsWithin};

/// What the calls do to the contents: an add adds to the sum; an insert that answers `Added` adds the key to
/// the keys, and no other changes them; a removal takes the key out. The keys of well-formed chains are a
/// set in ascending order, and each used cell is reached from its key's head, once.
pub fn contents_change()
    ensures sum { AddsToSum }
    ensures inserts { InsertsKey }
    ensures removes { RemovesKey }
    ensures ascends { KeysAscend }
    ensures reaches { ReachesOnce }
{}

/// Well-formed chains are a matter of their own words: a memory of zeros has them, empty; they stay well
/// formed where their own words stay; and the calls change no other word.
pub fn chains_are_apart()
    ensures empty { ZerosAreEmpty }
    ensures apart { DependsOnOwnWords }
    ensures within { ChangesOwnWords }
    ensures adds { AddsWithin }
{}
