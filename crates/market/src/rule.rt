// Queue rules: a house's own say on which order stands first and which orders can trade.
ghost use Rattle.clearing.specs.Side.{other};
ghost use Rattle.market.specs.Rule.{Rule, meets_across};
ghost use Rattle.market.specs.declared.rule.Quote.{Quote};
ghost use Rattle.std.specs.Prelude.{◌≡◌, true, false, not, ◌≢◌};

use clearing::side::Side;

// All that a rule sees of an order.
#[derive(Clone, Copy, PartialEq, Eq, Debug)]
pub struct Quote {
    pub side: Side,
    pub price: i64,
    pub number: u32,
}

/// What a house says of orders (docs/FLOOR.md, section 4). The implementor is the rule, so that a rule with settings of its
/// own can be one.
pub trait QueueRule {
    // The rule's two tests, as definitions: what goes ahead of what in a queue, and which buys and sells can trade.
    ghost rule: { Self → Rule };

    // Whether a stands before b, of the same side.
    fn before(&self, a: Quote, b: Quote) -> bool
        ensures { result ≡ (rule self.now).stands a b };

    // Whether the two can trade with each other.
    fn meet(&self, buy: Quote, sell: Quote) -> bool
        ensures { result ≡ (rule self.now).meets buy sell };

    /// An order does not stand before itself.
    ghost irreflexive: { (r : Self) (x : Quote) → (rule r).stands x x ≡ false };

    /// Standing before carries on from order to order.
    ghost transitive: { (r : Self) (x y z : Quote) → x.side ≡ y.side → y.side ≡ z.side → (rule r).stands x y ≡ true → (rule r).stands y z ≡ true → (rule r).stands x z ≡ true };

    /// Between two numbers on a side there is always a first and a second, and never two firsts.
    ghost decided: { (r : Self) (x y : Quote) → x.side ≡ y.side → (x.number ≢ y.number) → (rule r).stands x y ≡ not ((rule r).stands y x) };

    /// An order that can trade with one of a queue can trade with each that stands ahead of it there.
    ghost meeting: { (r : Self) (x a b : Quote) → a.side ≡ b.side → x.side ≡ other a.side → (rule r).stands a b ≡ true → meets_across (rule r) x.side x b ≡ true → meets_across (rule r) x.side x a ≡ true };
}
