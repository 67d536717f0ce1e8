//! What is counted of a node.
ghost use Rattle.std.specs.Prelude.{◌≡◌, count_by, not};
ghost use Rattle.directory_rules.specs.Sight.{is_settled};

use crate::Node;

impl Node {
    /// How many of the silo's own ranges aren't settled. Costs a walk over them.
    pub fn unsettled_count(&self) -> usize
        ensures { result ≡ count_by (λ e. not (is_settled e.1.state)) self.now.holding.pieces }
    {
        self.holding.unsettled_count()
    }
}
