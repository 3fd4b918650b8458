//! Laws of the definitions, as the contracts of functions.
ghost use Rattle.data_sums.specs.Statements.{PutsPair, SumsSubtrees, ZerosAreEmpty, DependsOnOwnWords, ChangesOwnWords, RemovesKey, RemovesWithin, WordsStay};

/// What a put does to the pairs, and that it leaves the map well formed: it gives a key that is there the value,
/// and adds the pair of one that isn't; NoRoom comes exactly where the key is absent and each cell has a pair. In
/// a well-formed map each sum word is the sum of its cell's subtree.
pub fn pairs_change()
    ensures puts { PutsPair }
    ensures sums { SumsSubtrees }
{}

/// A well-formed map is a matter of its own words: a memory of zeros has it, empty; it stays well formed where its
/// own words stay; and a put changes no other word.
pub fn maps_are_apart()
    ensures empty { ZerosAreEmpty }
    ensures apart { DependsOnOwnWords }
    ensures within { ChangesOwnWords }
{}

/// What a removal leaves: a well-formed map, and each word outside it. And the values stay words.
pub fn removals_stay_within()
    ensures removes { RemovesWithin }
    ensures words { WordsStay }
{}

/// What a removal does to the pairs: the key goes, with its value, and no other; the answer is whether it was there.
pub fn removals_take_the_key()
    ensures { RemovesKey }
{}
