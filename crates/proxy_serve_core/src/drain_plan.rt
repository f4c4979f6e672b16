ghost use Rattle.std.specs.Prelude.{◌≡◌, ◌≢◌, ◌↔◌, ◌∷◌, ◌<◌, ◌+◌, ◌-◌, ◌^◌, [], List, IsTrue};
ghost use Rattle.proxy_serve_core.specs.declared.drain_plan.DrainOrder.{DrainOrder as Order};
ghost use Rattle.proxy_serve_core.specs.DrainPlan.{IsDueBy, Plans};

/// An order to drain.
#[derive(Clone, Copy, Debug, PartialEq, Eq)]
pub struct DrainOrder {
    /// Its moment, in milliseconds.
    pub now: u64,
    /// How many milliseconds later the drain is to begin.
    pub after_ms: u64,
}

/// When a drain begins, by the orders so far.
#[derive(Clone, Copy, Debug, PartialEq, Eq, Drop)]
pub struct DrainPlan {
    at: Option<u64>,
}

impl DrainPlan {
    /// Nothing was ordered.
    pub fn new() -> DrainPlan
        ensures { Plans [] result }
    {
        DrainPlan { at: None }
    }

    /// Takes in an order. The earliest moment that was ordered counts. True: the drain begins earlier by this order.
    pub fn order(&mut self, order: DrainOrder) -> bool
        ensures plans { (orders : List Order) → Plans orders self.old
            → Plans (order ∷ orders) self.new }
        ensures earlier { (orders : List Order) → Plans orders self.old
            → order.now + order.after_ms < 2 ^ 64 - 1
            → IsTrue result ↔ ¬ (IsDueBy (order.now + order.after_ms) orders) }
    {
        let at = order.now.saturating_add(order.after_ms);
        let is_earlier = match self.at {
            Some(before) => at < before,
            None => true,
        };
        if is_earlier {
            self.at = Some(at);
        }
        is_earlier
    }

    /// Whether a drain was ordered.
    pub fn is_ordered(&self) -> bool
        ensures { (orders : List Order) → Plans orders self.now → IsTrue result ↔ (orders ≢ []) }
    {
        self.at.is_some()
    }

    /// Whether the drain is to begin: at this moment an order is as old as it said.
    pub fn is_due(&self, now: u64) -> bool
        ensures { (orders : List Order) → Plans orders self.now → now < 2 ^ 64 - 1
            → IsTrue result ↔ IsDueBy now orders }
    {
        match self.at {
            Some(at) => at <= now,
            None => false,
        }
    }
}
