//! An access that notes which words are read.
ghost use Rattle.std.specs.Prelude.{◌≡◌, None};
ghost use Rattle.tx_watching.specs.Watches.{CoverReads};

use stm_bell::stripes::Stripes;
use stm_model::access::Access;
use stm_model::stop::Stop;

/// The access behind a reference, and the stripes of the words that were read by it. They are exact under every
/// algorithm, whatever log that one keeps.
#[derive(Drop)]
pub struct Watching<'a, A: Access> {
    pub to: &'a mut A,
    pub stripes: Stripes,
    pub ghost noted: { A.stopped to.now ≡ None → CoverReads stripes (A.log to.now) },
}

impl<'a, A: Access> Access for Watching<'a, A> {
    ghost use Rattle.std.proofs.Common.{◌≡◌, refl, ◌∙◌};

    ghost log = { λ s. A.log s.to.now };

    ghost good = { λ s. A.good s.to.now };

    ghost words = { λ s. A.words s.to.now };

    ghost stopped = { λ s. A.stopped s.to.now };

    ghost keeps = { λ s t. A.keeps s.to.now t.to.now × (t.to.ghost_name ≡ s.to.ghost_name) };

    ghost keeps_refl = { λ s. (A.keeps_refl s.to.now, refl) };

    ghost keeps_trans = { λ s t u a b. (A.keeps_trans s.to.now t.to.now u.to.now a.0 b.0, b.1 ∙ a.1) };

    ghost once = { λ s. A.once s.to.now };

    #[inline(always)]
    fn read(&mut self, a: usize) -> Result<u64, Stop> {
        let value = self.to.read(a)?;
        self.stripes.add(a);
        Ok(value)
    }

    #[inline(always)]
    fn write(&mut self, a: usize, v: u64) -> Result<(), Stop> {
        self.to.write(a, v)
    }
}
