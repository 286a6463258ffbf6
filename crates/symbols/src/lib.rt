// Bytes under an order of the symbols: which of two has the smaller rank, and the rank of one. The crates above hand ranks down, those of an
// order or none, which stands for byte order; so a byte is looked up only in another order, and only where two bytes differ.
#![tactic(auto)]

ghost use Rattle.std.specs.Prelude.{◌≡◌, ◌<◌, []};
ghost use Rattle.ranks.specs.Ranks.{Order, rank};
ghost use Rattle.ranks.specs.Inner.{Ranks, Below};
ghost use Rattle.ranks.proofs.Known.{ranks_prop};

// The number of ranks in an order.
pub const ORDER: usize = 256;

// The ranks of the symbols under an order: those of an order, or none, which stands for byte order.
#[derive(Clone, Copy)]
pub struct Ranking<'a> {
    pub list: &'a [u8],
    pub ghost known: { Ranks list.now } by { ranks_prop list.now },
}

impl<'a> Ranking<'a> {
    // Byte order, which needs no ranks.
    pub fn of_bytes() -> Self
        ensures { result.list.now ≡ [] }
    {
        Ranking { list: &[] }
    }

    // The ranks of an order.
    #[tactic(auto, using(ranks::proofs::Ranked::order_ranks))]
    pub fn of_order(order: &'a [u8]) -> Self
        requires { Order order.now }
        ensures { result.list.now ≡ order.now }
    {
        Ranking { list: order }
    }

    // The rank of a byte.
    pub fn rank_of(self, byte: u8) -> usize
        ensures { (result ≡ rank self.entry.list.now byte) × (byte < 256) }
    {
        if self.list.len() == 0 {
            return usize::from(byte);
        }
        usize::from(self.list[usize::from(byte)])
    }

    // Whether x has a smaller rank than y.
    pub fn below(self, x: u8, y: u8) -> bool
        ensures { Below self.entry.list.now x y result }
    {
        if self.list.len() != 0 {
            return self.list[usize::from(x)] < self.list[usize::from(y)];
        }
        x < y
    }
}
