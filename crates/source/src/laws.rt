// The laws of the operators' values, as a contract.
ghost use Rattle.std.specs.Prelude.{◌≡◌};
ghost use Rattle.source.specs.Laws.{BitByBit, Negatives, Differences, Shifts, SignedOrder, SignedNumbers, Division, TakenOut, JoinedAgain, Parts};

// Answers 0: what it is for are the laws that it ensures.
pub fn values_stand() -> u8
    ensures answer { result ≡ 0 }
    ensures bitwise { BitByBit }
    ensures negatives { Negatives }
    ensures differences { Differences }
    ensures shifts { Shifts }
    ensures order { SignedOrder }
    ensures numbers { SignedNumbers }
    ensures division { Division }
    ensures taken_out { TakenOut }
    ensures joined_again { JoinedAgain }
    ensures parts { Parts }
{
    0
}
