//! Laws of the definitions, as the contracts of functions.
ghost use Rattle.data_tree.specs.Statements.{InsertsKey, RemovesKey, KeysAscend, Reaches, NamedOnce, ZerosAreEmpty, DependsOnOwnWords, ChangesOwnWords};

/// What the calls do to the keys: an insert that answers `Added` adds the key to the keys, and no other
/// changes them; a removal takes the key out. The keys of a well-formed tree are a set in ascending order,
/// and each used cell is reached from the root by the walk to its key, and named by one link.
pub fn keys_change()
    ensures inserts { InsertsKey }
    ensures removes { RemovesKey }
    ensures ascends { KeysAscend }
    ensures reaches { Reaches }
    ensures once { NamedOnce }
{}

/// A well-formed tree is a matter of its own words: a memory of zeros has one, empty; it stays well formed
/// where its own words stay; and the calls change no other word.
pub fn trees_are_apart()
    ensures empty { ZerosAreEmpty }
    ensures apart { DependsOnOwnWords }
    ensures within { ChangesOwnWords }
{}
