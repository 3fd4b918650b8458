//! A borrowed access, as an access of its own.
use stm_model::access::Access;
use stm_model::stop::Stop;

/// The access behind a reference.
#[derive(Drop)]
pub struct Lent<'a, A: Access> {
    pub to: &'a mut A,
}

impl<'a, A: Access> Access for Lent<'a, A> {
    ghost use Rattle.std.proofs.Common.{◌≡◌, refl, ◌∙◌};

    ghost log = { λ s. A.log s.to.now };

    ghost good = { λ s. A.good s.to.now };

    ghost words = { λ s. A.words s.to.now };

    ghost stopped = { λ s. A.stopped s.to.now };

    ghost keeps = { λ s t. A.keeps s.to.now t.to.now × (t.to.ghost_name ≡ s.to.ghost_name) };

    ghost keeps_refl = { λ s. (A.keeps_refl s.to.now, refl) };

    ghost keeps_trans = { λ s t u a b. (A.keeps_trans s.to.now t.to.now u.to.now a.0 b.0, b.1 ∙ a.1) };

    ghost once = { λ s. A.once s.to.now };

    fn read(&mut self, a: usize) -> Result<u64, Stop> {
        self.to.read(a)
    }

    fn write(&mut self, a: usize, v: u64) -> Result<(), Stop> {
        self.to.write(a, v)
    }
}
