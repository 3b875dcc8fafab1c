use crate::posted::Posted;
use dv_value::items::Items;

/// What an inbox gives that is gathered.
#[derive(Debug, Drop)]
pub struct Taken {
    /// The posts that hadn't been taken: those of each caller in their order.
    pub rest: Items<Posted>,
    /// How many posts of each caller had been taken, which doesn't count those in `rest`;
    /// `u32::MAX` where there were more.
    pub counts: Vec<u32>,
}
