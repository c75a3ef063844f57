// How much of its tables a workbook uses.
ghost use Rattle.std.specs.Prelude.{◌≤◌};

// At most 1,024 source rows, 32,768 target rows and 4,096 assertions.
#[derive(Clone, Copy, PartialEq, Eq, Debug)]
pub struct Counts {
    pub sources: usize,
    pub rows: usize,
    pub assertions: usize,
    ghost within: { (sources ≤ 1024) × (rows ≤ 32768) × (assertions ≤ 4096) },
}
