//! Who does how much.
ghost use Rattle.std.specs.Prelude.{◌≡◌, ◌*◌};
ghost use Rattle.example_queue_jobs.specs.Days.{IsPlan};

/// So many producers, each with so many jobs of its own, so many workers, and room for so many jobs that wait.
#[derive(Clone, Copy, Drop)]
pub struct Plan {
    pub producers: usize,
    pub workers: usize,
    pub each: u32,
    pub room: usize,
}

impl Plan {
    /// How many jobs there are. They are numbered from 1 on, those of producer 0 first.
    pub fn jobs(&self) -> u32
        requires plan { IsPlan self.now }
        ensures { result ≡ self.now.producers * self.now.each }
    {
        self.producers as u32 * self.each
    }

    /// How many of them a worker is to take, whichever they are.
    pub fn share(&self, worker: usize) -> usize
        requires plan { IsPlan self.now }
    {
        let jobs = self.jobs() as usize;
        if worker < jobs % self.workers {
            jobs / self.workers + 1
        } else {
            jobs / self.workers
        }
    }
}
