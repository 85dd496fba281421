// The places of the nodes of a list, from its last node back.
ghost use Rattle.std.specs.Prelude.{◌≡◌};
ghost use Rattle.store.specs.Back.{places_back, places_left};

use crate::nodes::node_before;

// The places that are left: the next is `last - 1`, and 0 says that there is none.
#[derive(Clone, Copy)]
pub struct NodesBack<'a> {
    pub nodes: &'a [u32],
    pub last: u32,
}

// Those of the list whose last node is node `last - 1`.
pub fn nodes_back(nodes: &[u32], last: u32) -> NodesBack<'_>
    ensures { places_left result ≡ places_back nodes.now last last }
{
    NodesBack { nodes, last }
}

impl<'a> Iterator for NodesBack<'a> {
    ghost use Rattle.std.specs.Iterator.{YieldsFirst, item_count};

    type Item = u32;

    ghost next_gives = { YieldsFirst places_left };

    ghost remaining = { item_count places_left };

    #[tactic(auto, using(crate::proofs::BackLaws::back_end, crate::proofs::BackLaws::back_one))]
    fn next(&mut self) -> Option<u32> {
        if self.last == 0 {
            return None;
        }
        let at = self.last - 1;
        self.last = node_before(self.nodes, at);
        Some(at)
    }
}
