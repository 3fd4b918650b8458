//! Laws of the rule, as the contracts of functions.
ghost use Rattle.data_regions.specs.Statements.{OpeningIsGood, NoRegionIsGood, PlainWriteKeeps, AddKeeps, ListKeeps, HashKeeps, TreeKeeps, QueueKeeps, SumMapKeeps, VersionOneFits, VersionOnePlaces, VersionOnePlain};

use data_cells::laws::{chains_are_apart, contents_change};
use data_queue::laws::{contents_change as values_change, queues_are_apart};
use data_sums::laws::{maps_are_apart, pairs_change, removals_stay_within};
use data_tree::laws::{keys_change, trees_are_apart};

/// What keeps memories good: a memory of zeros is good, and any memory where there is no region. For regions
/// that are apart from each other, a structure's call on its own region keeps every region well formed, and
/// so does a write of a word outside them all.
pub fn memories_stay_good()
    ensures opening { OpeningIsGood }
    ensures none { NoRegionIsGood }
    ensures plain { PlainWriteKeeps }
    ensures add { AddKeeps }
    ensures list { ListKeeps }
    ensures hash { HashKeeps }
    ensures tree { TreeKeeps }
    ensures queue { QueueKeeps }
    ensures sums { SumMapKeeps }
{
    chains_are_apart();
    contents_change();
    trees_are_apart();
    keys_change();
    values_change();
    queues_are_apart();
    pairs_change();
    maps_are_apart();
    removals_stay_within();
}

/// Where the regions of the workload text's first version stand, by the numbers of that text's format: they
/// are apart, within 1,024 words, and leave the words below 64 and from 1,024 on.
pub fn version_one_is_laid_out()
    ensures fits { VersionOneFits }
    ensures places { VersionOnePlaces }
    ensures plain { VersionOnePlain }
{}
