// The laws of the meaning of a table, as contracts.
ghost use Rattle.std.specs.Prelude.{◌≡◌};
ghost use Rattle.target.specs.Laws.{OneEach, AppendKeeps, RowByRow, Divides, KindsAreSorts, PrefixSound};

// Answers 0: what it is for are the laws that it ensures.
pub fn meaning_stands() -> u8
    ensures answer { result ≡ 0 }
    ensures each { OneEach }
    ensures keeps { AppendKeeps }
    ensures rows { RowByRow }
    ensures divides { Divides }
    ensures kinds { KindsAreSorts }
    ensures prefix { PrefixSound }
{
    0
}
