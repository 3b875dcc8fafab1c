use dv_jobs::ran::Ran;
use dv_left::Remains;
use dv_posts::posted::Posted;
use dv_value::items::Items;

/// A run that has ended, with the places at which its events began.
#[derive(Drop)]
pub struct Marked {
    /// What remains of the world at the end.
    pub remains: Remains,
    /// The batches of posts that were taken.
    pub batches: Items<Items<Posted>>,
    /// The jobs, each with its result.
    pub ran: Ran,
    /// How many entries there were before each event, and before the last batch.
    pub marks: Items<usize>,
}
