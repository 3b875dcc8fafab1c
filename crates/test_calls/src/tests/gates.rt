use dv_jobs::gate::{Gate, OWNER};
use dv_jobs::job::{Answer, Job};
use dv_script::work::Work;
use std::alloc::{AllocError, Global};
use std::sync::atomic::{AtomicU32, Ordering};
use std::thread;

/// How often one thread looks for what another one does, and lets others run in between. This is
/// some seconds.
pub const MOST_LOOKS: u32 = 2_000_000;

/// Holds each job until so many have come.
#[derive(Drop)]
pub struct Holding {
    wanted: u32,
    came: AtomicU32,
    /// How many jobs were held in vain.
    pub alone: AtomicU32,
    /// The worker that came last, 0 where none but the owner did.
    pub worker: AtomicU32,
}

impl Holding {
    pub fn new(wanted: u32) -> Holding {
        Holding {
            wanted,
            came: AtomicU32::new(0),
            alone: AtomicU32::new(0),
            worker: AtomicU32::new(OWNER),
        }
    }

    /// Whether all have come, which is looked for as long as a job is held.
    fn have_all_come(&self) -> bool {
        for _ in 0..MOST_LOOKS {
            if self.came.load(Ordering::SeqCst) >= self.wanted {
                return true;
            }
            thread::yield_now();
        }
        false
    }
}

impl Gate for Holding {
    fn answer(&self, alloc: Global, worker: u32, job: Job) -> Answer {
        if worker != OWNER {
            self.worker.store(worker, Ordering::SeqCst);
        }
        self.came.fetch_add(1, Ordering::SeqCst);
        if !self.have_all_come() {
            self.alone.fetch_add(1, Ordering::SeqCst);
        }
        job.done(alloc)
    }
}

/// Counts how often the job of each number came. It may give the first one back.
#[derive(Drop)]
pub struct Counting {
    came: Vec<AtomicU32>,
    gives_back: bool,
}

impl Counting {
    /// For so many jobs.
    pub fn new(alloc: Global, jobs: u32, gives_back: bool) -> Result<Counting, AllocError> {
        let mut came = Vec::new(alloc);
        for _ in 0..jobs {
            came.push(AtomicU32::new(0))?;
        }
        Ok(Counting { came, gives_back })
    }

    /// Whether each job came once.
    pub fn have_all_come_once(&self) -> bool {
        self.came
            .iter()
            .all(|came| came.load(Ordering::SeqCst) == 1)
    }

    /// Whether a job came more than once.
    pub fn has_any_come_again(&self) -> bool {
        self.came.iter().any(|came| came.load(Ordering::SeqCst) > 1)
    }
}

impl Gate for Counting {
    fn answer(&self, alloc: Global, _worker: u32, job: Job) -> Answer {
        if let Some(came) = self.came.get(job.number as usize) {
            came.fetch_add(1, Ordering::SeqCst);
        }
        if self.gives_back && job.number == 0 {
            Err(job)
        } else {
            job.done(alloc)
        }
    }
}

/// Lets others run before each answer, once more than before the last one, until a sum has come. So
/// it soon has waited long enough, also where others run for long.
#[derive(Drop)]
pub struct Yielding {
    jobs: AtomicU32,
    sums: AtomicU32,
}

impl Yielding {
    pub fn new() -> Yielding {
        Yielding {
            jobs: AtomicU32::new(0),
            sums: AtomicU32::new(0),
        }
    }

    /// Lets others run so often.
    fn let_others_run(&self, times: u32) {
        for _ in 0..times {
            if self.sums.load(Ordering::SeqCst) > 0 {
                return;
            }
            thread::yield_now();
        }
    }
}

impl Gate for Yielding {
    fn answer(&self, alloc: Global, _worker: u32, job: Job) -> Answer {
        if matches!(job.work, Work::Sum(_)) {
            self.sums.fetch_add(1, Ordering::SeqCst);
        }
        self.let_others_run(self.jobs.fetch_add(1, Ordering::SeqCst));
        job.done(alloc)
    }
}

/// Notes which worker answered the job of each number.
#[derive(Drop)]
pub struct Noting {
    workers: Vec<AtomicU32>,
}

impl Noting {
    /// For so many jobs.
    pub fn new(alloc: Global, jobs: u32) -> Result<Noting, AllocError> {
        let mut workers = Vec::new(alloc);
        for _ in 0..jobs {
            workers.push(AtomicU32::new(0))?;
        }
        Ok(Noting { workers })
    }

    /// Whether no job of an even number, or of an odd one, was answered by this worker.
    pub fn is_none_of(&self, odd: usize, worker: u32) -> bool {
        self.workers.iter().enumerate().all(|(number, noted)| number % 2 != odd
            || noted.load(Ordering::SeqCst) != worker)
    }
}

impl Gate for Noting {
    fn answer(&self, alloc: Global, worker: u32, job: Job) -> Answer {
        if let Some(noted) = self.workers.get(job.number as usize) {
            noted.store(worker, Ordering::SeqCst);
        }
        job.done(alloc)
    }
}
