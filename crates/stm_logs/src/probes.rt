//! How many buckets a lookup looks at where homes are addresses modulo the number of buckets.
ghost use Rattle.std.specs.Prelude.{◌≤◌, ◌<◌, ◌+◌, length};
ghost use Rattle.stm_model.specs.Memories.{Once};
ghost use Rattle.stm_logs.specs.Probing.{IsProbed};

use crate::index::{Bucket, Homes, clear_marks, look_up, take_all};

/// How many buckets a lookup of the address looks at in an index of the items, which is made to be asked: that of a log
/// has other homes.
pub fn probes_among(buckets: usize, items: &[(usize, u64)], a: usize) -> usize
    requires few { buckets ≤ 8192 }
    requires room { length items.now < buckets }
    requires once { Once items.now }
    ensures probed { IsProbed buckets items.now a result }
    ensures high { result ≤ length items.now + 1 }
{
    let mut room = [Bucket { mark: 0, item: 0 }; 8192];
    probes_in(&mut room, buckets, items, a)
}

/// The same in this room.
fn probes_in(room: &mut [Bucket; 8192], buckets: usize, items: &[(usize, u64)], a: usize) -> usize
    requires few { buckets ≤ 8192 }
    requires room { length items.now < buckets }
    requires once { Once items.now }
    ensures probed { IsProbed buckets items.now a result }
    ensures high { result ≤ length items.now + 1 }
{
    let index = &mut room[..buckets];
    clear_marks(index);
    take_all(Homes::Modulo, index, items, 1);
    look_up(Homes::Modulo, index, items, 1, a).distance + 1
}
