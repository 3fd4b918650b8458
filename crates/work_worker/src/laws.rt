//! The law of rises, as the contract of a function.
ghost use Rattle.work_worker.specs.Courses.{CoursesInstall};
ghost use Rattle.work_worker.specs.RiseCovers.{TurnsCover, TurnsCoverAlone, TurnsCoverWinding, TurnsCoverFinishing, ItemsCover};

use stm_model::rule::MemRule;

/// By how much the items that a caller has done can have raised the clock: each turn covers what it raised
/// it by, alone and among others, in the schedule and after it; and so the items cover all.
pub fn turns_cover<K: MemRule>(_rule: &K)
    ensures covers { TurnsCover K (K.good _rule.now) }
    ensures alone { TurnsCoverAlone K (K.good _rule.now) }
    ensures winding { TurnsCoverWinding K (K.good _rule.now) }
    ensures finishing { TurnsCoverFinishing K (K.good _rule.now) }
    ensures items { ItemsCover K (K.good _rule.now) }
{}

/// What a caller has installed when nothing is left to it: the switches of its items, and after each transaction the
/// one that its policy asked for.
pub fn courses_install()
    ensures { CoursesInstall }
{}
