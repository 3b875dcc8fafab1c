//! Laws of the list of orders, each a function with an empty body whose clauses are the law.

ghost use Rattle.dv_orders.specs.Cases.{TwoCallersHaveEighteenOrders, TwoDrainsHaveThreeOrders};
ghost use Rattle.dv_orders.specs.Cases.{DrainsTakeFewPosts, NobodyPosts, PostsAtTheEndTakeTurns};
ghost use Rattle.dv_orders.specs.Faults.{FaultsAreOfNoOrder};
ghost use Rattle.dv_orders.specs.Listed.{EveryOrderIsListed, NoOrderIsListedTwice};
ghost use Rattle.dv_orders.specs.Listed.{OneOrderWithoutPosts, OrdersAreCounted, ThereIsAnOrder};
ghost use Rattle.dv_orders.specs.Sampled.{SamplesAreOrders};
ghost use Rattle.dv_orders.specs.Sampling.{FirstNumbersArePublished};

/// The list holds each order in which the posts of a script may be taken, once, and nothing else.
/// Its length is the number of orders, which is one at least. A script without posts has one order.
pub fn every_order_is_listed()
    ensures all { EveryOrderIsListed }
    ensures once { NoOrderIsListedTwice }
    ensures counted { OrdersAreCounted }
    ensures some { ThereIsAnOrder }
    ensures one { OneOrderWithoutPosts }
{}

/// Batches of which a fault holds aren't an order.
pub fn faults_are_of_no_order()
    ensures { FaultsAreOfNoOrder }
{}

/// The orders of small scripts, worked out by hand.
pub fn orders_are_worked_out()
    ensures turns { TwoCallersHaveEighteenOrders }
    ensures drains { TwoDrainsHaveThreeOrders }
    ensures few { DrainsTakeFewPosts }
    ensures none { NobodyPosts }
    ensures end { PostsAtTheEndTakeTurns }
{}

/// The generator gives the numbers of SplitMix64.
pub fn generator_is_splitmix()
    ensures { FirstNumbersArePublished }
{}

/// What a seed draws are orders of the script.
pub fn samples_are_orders()
    ensures { SamplesAreOrders }
{}
