ghost use Rattle.std.specs.Prelude.{◌≡◌, ◌≤◌, List, ℕ, Option, option_map, OnErr, IsErr};
ghost use Rattle.cf_io.specs.Count.{Rises, one_more};
ghost use Rattle.cf_link.specs.Tells.{TellsEnough, AnswersAsTold};

/// The instance at the other end is lost.
#[derive(Clone, Copy, Debug, PartialEq, Eq)]
pub struct Down;

/// A way to the instance in one facility. It may go to another thread, and no more.
pub trait Link: Send + Drop {
    /// How many calls there have been, where the link tells them. The count stands still at
    /// `u64::MAX`.
    ghost calls: { Self → Option ℕ };

    /// The numbers of the calls that are answered [`Down`], from 1, where the link tells them.
    ghost downs: { Self → Option (List ℕ) };

    /// How many faults there have been. The count never falls, and stands still at `u64::MAX`.
    ghost faults: { Self → ℕ };

    /// Asks whether the instance can be reached. It takes no memory.
    ///
    /// # Errors
    ///
    /// `Down` where there was a fault. The instance is taken as lost then, for good.
    fn ask(&mut self) -> Result<(), Down>
        ensures cause { OnErr result (Rises (faults self.old) (faults self.new)) }
        ensures faults { faults self.old ≤ faults self.new }
        ensures calls { calls self.new ≡ option_map one_more (calls self.old) }
        ensures downs { downs self.new ≡ downs self.old }
        ensures as_told { AnswersAsTold (calls self.old) (downs self.old) (IsErr result) };

    /// A link that tells at least one call that is answered `Down` tells its calls too.
    ghost tells_enough: { (link : Self) → TellsEnough (calls link) (downs link) };
}
