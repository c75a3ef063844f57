// What the ends of a record tell.
ghost use Rattle.std.specs.Prelude.{◌≡◌, ℕ, ◌-◌, ◌<◌, true, nat_lt};

use keeper::keeper::Keeper;

// Whether every number that the record stands for is known to lie below the limit.
pub fn stays_below<K: Keeper>(keeper: &K, r: K::Record, limit: u64) -> bool
    ensures answer { result ≡ nat_lt (K.highest keeper.now r) limit }
    ensures sound { (n : ℕ) → result ≡ true → K.holds keeper.now r n → n < limit }
{
    keeper.most(r) < limit
}

// How far the ends of the record lie apart.
pub fn spread<K: Keeper>(keeper: &K, r: K::Record) -> u64
    ensures { result ≡ K.highest keeper.now r - K.lowest keeper.now r }
{
    keeper.most(r) - keeper.least(r)
}
