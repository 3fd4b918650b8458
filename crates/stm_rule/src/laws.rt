//! The step law and the law of quiescence, as contracts. A function here does nothing: its contract is the law.
ghost use Rattle.std.specs.Prelude.{ℕ, List, replicate};
ghost use Rattle.stm_model.specs.declared.config.Config.{Config};
ghost use Rattle.stm_model.specs.Configs.{IsConfig};
ghost use Rattle.stm_rule.specs.Runs.CheckRun.{CoreChecks};
ghost use Rattle.stm_rule.specs.Runs.FenceRun.{CoreFences};
ghost use Rattle.stm_rule.specs.Runs.NoteRun.{CoreNotes};
ghost use Rattle.stm_rule.specs.Runs.QuitRun.{CoreQuits};
ghost use Rattle.stm_rule.specs.Runs.CoreRuns.{CoreOpens, CoreCommits, CoreInstalls, CorePromotes, CoreRecords, CoreRings};
ghost use Rattle.stm_rule.specs.Irrevocable.{OneIrrevocable};
ghost use Rattle.stm_rule.specs.Kept.{good_of};
ghost use Rattle.stm_rule.specs.Runs.NoteRuns.{CoreKeepsAlong};
ghost use Rattle.stm_rule.specs.Privatization.{RangeIsHistory, RangeIsPrivate};
ghost use Rattle.stm_rule.specs.Kinds.Stamping.{CoreStamps};
ghost use Rattle.stm_rule.specs.Quiescence.{GrantedLasts, GrantedRests, HolderAlone, InstalledRests, QuietRests, RestLasts};

use stm_model::config::Config;
use stm_model::rule::MemRule;

/// Whatever steps of the core any callers take, and whatever notes they tell and learn and seats they take in between
/// them, each allowed where it comes, the rule holds after each, and each note is a prefix of the history.
pub fn core_keeps_along<K: MemRule>()
    ensures { (rule : K) (c : Config) → CoreKeepsAlong (good_of K.good c rule) c }
{}

/// The opening words, by name and in the table, and the first views meet the rule.
pub fn core_opens<K: MemRule>()
    ensures { (rule : K) (c : Config) → IsConfig c → K.good rule (replicate c.words 0)
        → CoreOpens (good_of K.good c rule) c }
{}

/// These laws speak of some runs: an attempt from the opening is one.
pub fn core_commits<K: MemRule>()
    ensures { (rule : K) (c : Config) → CoreCommits (good_of K.good c rule) c }
{}

/// A caller that has closed the gate and seen all others idle since is alone with the memory, which lies in
/// the heap, and stays so until it takes a step itself, while the others announce, load the closed gate and
/// withdraw. After an install it is so under the new algorithm, with BASE and DONE at the clock. Whoever holds the
/// gate and has seen all others idle, be it in its attempt, is the only one in an attempt; and once its view says that
/// the attempt is promoted, it is alone with the memory too, but for its own stores, the records that it holds, and
/// DONE from where it raises the clock until it stores it.
pub fn quiet_is_rest<K: MemRule>()
    ensures rests { (rule : K) (c : Config) → QuietRests (good_of K.good c rule) c }
    ensures alone { (rule : K) (c : Config) → HolderAlone (good_of K.good c rule) c }
    ensures granted { (rule : K) (c : Config) → GrantedRests (good_of K.good c rule) c }
    ensures granted_lasts { (rule : K) (c : Config) → GrantedLasts (good_of K.good c rule) c }
    ensures lasts { (rule : K) (c : Config) → RestLasts (good_of K.good c rule) c }
    ensures installed { (rule : K) (c : Config) → InstalledRests (good_of K.good c rule) c }
{}

/// These laws speak of some worlds: one in which a caller is quiet, and has installed, is reached.
pub fn core_installs<K: MemRule>()
    ensures { (rule : K) (c : Config) → CoreInstalls (good_of K.good c rule) c }
{}

/// At most one attempt is irrevocable at a time.
pub fn one_irrevocable<K: MemRule>()
    ensures { (rule : K) (c : Config) → OneIrrevocable (good_of K.good c rule) c }
{}

/// While a caller has a range of words out of the transactions, nobody loads or stores a word of it but that caller,
/// and it in no attempt.
pub fn range_is_private<K: MemRule>()
    ensures { (rule : K) (c : Config) → RangeIsPrivate (good_of K.good c rule) c }
{}

/// What had been committed as a caller took a range of words out of the transactions begins the one history, whatever
/// any callers do afterwards.
pub fn range_is_history<K: MemRule>()
    ensures { (rule : K) (c : Config) → RangeIsHistory (good_of K.good c rule) c }
{}

/// And so is a run that switches the algorithm twice, with a commit of TML, a promoted one and one of Serial. Right
/// after the promotion the view says that the attempt is promoted.
pub fn core_promotes<K: MemRule>()
    ensures { (rule : K) (c : Config) → CorePromotes (good_of K.good c rule) c }
{}

/// And a run that installs RingSW, with a commit by the ring and a promoted one.
pub fn core_rings<K: MemRule>()
    ensures { (rule : K) (c : Config) → CoreRings (good_of K.good c rule) c }
{}

/// And a run in which one caller's check loads the slot of another's entry, and its start moves past it.
pub fn core_checks<K: MemRule>()
    ensures { (rule : K) (c : Config) → CoreChecks (good_of K.good c rule) c }
{}

/// And one in which a caller takes a range out, loads and stores there while another comes and withdraws, and gives it
/// back with one entry.
pub fn core_fences<K: MemRule>()
    ensures { (rule : K) (c : Config) → CoreFences (good_of K.good c rule) c }
{}

/// And one in which a caller commits and tells, and another learns it and has then seen the entry.
pub fn core_notes<K: MemRule>()
    ensures { (rule : K) (c : Config) → CoreNotes (good_of K.good c rule) c }
{}

/// And one that commits under OrecLazy, and promoted under OrecEager.
pub fn core_records<K: MemRule>()
    ensures { (rule : K) (c : Config) → CoreRecords (good_of K.good c rule) c }
{}

/// And one in which a promoted attempt of OrecEager that wrote nothing raises the clock without an entry, and gives
/// back one version later the record of a word that it took back. BASE and DONE stay.
pub fn core_quits<K: MemRule>()
    ensures { (rule : K) (c : Config) → CoreQuits (good_of K.good c rule) c }
{}

/// No step lets the stamp of a record fall.
pub fn core_stamps<K: MemRule>()
    ensures { (rule : K) (c : Config) → CoreStamps (good_of K.good c rule) c }
{}
