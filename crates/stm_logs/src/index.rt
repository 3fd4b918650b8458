//! The index of a log: an open-addressing hash table of buckets, with linear probing. A lookup goes on from the
//! address's home, from the last bucket to the first, up to the address or an open bucket. A bucket is taken where its
//! mark is the log's generation, so a log becomes empty by raising its generation.
ghost use Rattle.std.specs.Prelude.{◌≡◌, ◌<◌, ◌≤◌, ◌++◌, ◌∷◌, [], ℕ, None, length, slice_index_or};
ghost use Rattle.stm_model.specs.Memories.{item_at, Once};
ghost use Rattle.stm_logs.specs.Buckets.{IsIndex, IsLookup, blank, home_of};

/// An odd number, found by search: modulo 2^32 its multiples lie far apart, and so do those of its products with powers
/// of two. So few of the addresses of a row meet, or of rows a power of two apart.
const SPREAD: u32 = 1339872799;

/// A bucket, and the item that it names while it is taken.
#[derive(Clone, Copy, Drop, Debug, PartialEq, Eq)]
pub struct Bucket {
    /// The generation in which the bucket was last taken, 0 if in none.
    pub mark: u32,
    /// The item's index in the log.
    pub item: u32,
}

/// Where a lookup ended.
#[derive(Clone, Copy, Drop, Debug, PartialEq, Eq)]
pub struct Lookup {
    /// The number of the last bucket looked at: the one that names the address's item, else an open one.
    pub at: usize,
    /// How many buckets of other addresses were looked at before it.
    pub distance: usize,
    /// The index of the address's item, if it has one.
    pub item: Option<usize>,
}

/// Where the lookups in an index begin.
#[derive(Clone, Copy, Drop, Debug, PartialEq, Eq)]
pub enum Homes {
    /// By the high bits of a product with the address: rows and strides of addresses come to lie apart.
    Mixed,
    /// At the bucket whose number is the address modulo the number of buckets.
    Modulo,
}

/// The number of the bucket at which the lookup of `a` begins.
#[inline(always)]
pub fn home(homes: Homes, buckets: usize, a: usize) -> usize
    requires some { 0 < buckets }
    requires few { buckets ≤ 2097152 }
    ensures is { result ≡ home_of homes buckets a }
    ensures within { result < buckets }
{
    match homes {
        Homes::Mixed => ((a % 4294967296) as u32).wrapping_mul(SPREAD) as usize * buckets
            / 4294967296,
        Homes::Modulo => a % buckets,
    }
}

/// Looks an address up. It looks at one bucket at least, and at one more than there are items at most.
#[inline]
pub fn look_up(
    homes: Homes,
    index: &[Bucket],
    items: &[(usize, u64)],
    generation: u32,
    a: usize,
) -> Lookup
    requires few { length index.now ≤ 2097152 }
    requires indexed { IsIndex homes generation items.now index.now }
    requires room { length items.now < length index.now }
    ensures { IsLookup homes generation items.now index.now a result }
{
    let mut at = home(homes, index.len(), a);
    let mut distance = 0;
    loop {
        let bucket = index[at];
        if bucket.mark != generation {
            return Lookup {
                at,
                distance,
                item: None,
            };
        }
        let item = bucket.item as usize;
        if items[item].0 == a {
            return Lookup {
                at,
                distance,
                item: Some(item),
            };
        }
        distance += 1;
        at += 1;
        if at == index.len() {
            at = 0;
        }
    }
}

/// Takes a bucket for a new item after these, of an address that none of them has: the one at which its lookup ends.
/// Where the first is open, no address is compared.
#[inline(always)]
pub fn take(homes: Homes, index: &mut [Bucket], items: &[(usize, u64)], generation: u32, a: usize)
    requires few { length index.old ≤ 2097152 }
    requires indexed { IsIndex homes generation items.now index.old }
    requires room { length items.now < length index.old }
    requires new { item_at a items.now ≡ None }
    ensures size { length index.new ≡ length index.old }
    ensures indexed { (v : ℕ) → IsIndex homes generation (items.now ++ (a, v) ∷ []) index.new }
{
    let mut at = home(homes, index.len(), a);
    if index[at].mark == generation {
        at = look_up(homes, index, items, generation, a).at;
    }
    let bucket = &mut index[at];
    bucket.mark = generation;
    bucket.item = items.len() as u32;
}

/// Takes a bucket for each of the items, of which none has one.
pub fn take_all(homes: Homes, index: &mut [Bucket], items: &[(usize, u64)], generation: u32)
    requires few { length index.old ≤ 2097152 }
    requires blank { IsIndex homes generation [] index.old }
    requires room { length items.now < length index.old }
    requires once { Once items.now }
    ensures size { length index.new ≡ length index.old }
    ensures indexed { IsIndex homes generation items.now index.new }
{
    for i in 0..items.len() {
        take(homes, index, &items[..i], generation, items[i].0);
    }
}

/// Sets every mark to 0, which is no generation. The items stay: a fill of whole buckets would be compiled to a call,
/// and each begin would save registers for it.
pub fn clear_marks(index: &mut [Bucket])
    ensures size { length index.new ≡ length index.old }
    ensures marks { (k : ℕ) → k < length index.new → (slice_index_or index.new k blank).mark ≡ 0 }
{
    for bucket in index.iter_mut() {
        bucket.mark = 0;
    }
}
