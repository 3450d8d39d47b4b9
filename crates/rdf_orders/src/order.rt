//! The three orders, and the keys of a quad in them.
ghost use Rattle.std.specs.Prelude.{◌≡◌};
ghost use Rattle.rdf_orders.specs.Quads.{key_in, quad_at};
ghost use Rattle.rdf_orders.specs.declared.order.Order.TheVariants.{Spo};

/// The numbers of a quad in the arrangement of an order, the graph first.
pub type Key = [u64; 4];

/// In which order the places of a quad are compared, behind the graph.
#[derive(Clone, Copy, Debug, PartialEq, Eq)]
pub enum Order {
    /// Subject, predicate, object.
    Spo,
    /// Predicate, object, subject.
    Pos,
    /// Object, subject, predicate.
    Osp,
}

impl Order {
    /// The key in this order of the quad that has `key` in `Spo`.
    pub fn arrange(self, key: &Key) -> Key
        ensures { result ≡ key_in self (quad_at Spo key.now) }
    {
        let [graph, subject, predicate, object] = *key;
        match self {
            Order::Spo => [graph, subject, predicate, object],
            Order::Pos => [graph, predicate, object, subject],
            Order::Osp => [graph, object, subject, predicate],
        }
    }

    /// The key in `Spo` of the quad that has `key` in this order.
    pub fn restore(self, key: &Key) -> Key
        ensures { result ≡ key_in Spo (quad_at self key.now) }
    {
        let [graph, first, second, third] = *key;
        match self {
            Order::Spo => [graph, first, second, third],
            Order::Pos => [graph, third, first, second],
            Order::Osp => [graph, second, third, first],
        }
    }
}
