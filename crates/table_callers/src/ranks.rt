// Ranks of tables over local arrays, as the contracts alone give them.
ghost use Rattle.std.specs.Prelude.{◌≡◌, Some, None, Ok};

use amounts::amount::Amount;
use amounts::shares::Share;
use refusals::Refusal;
use tables::band::Band;
use tables::table::Table;

const UNUSED: Band<Share> = Band {
    source: 0,
    target: 0,
    low: Share { number: 0 },
    high: Share { number: 0 },
};

/// State 1 has no bands and falls in the first round; state 0, which passes all to it, in the second.
pub fn rank_in_a_line() -> Result<Option<u16>, Refusal>
    ensures { result ≡ Ok (Some 2) }
{
    let mut bands = [UNUSED; 1];
    let mut ranks = [0u16; 2];
    let mut table = Table::open(&mut bands, &mut ranks);
    table.size(2, 0)?;
    table.set(0, 1, Share::full(), Share::full())?;
    table.check()?;
    table.rank(0)
}

/// A state that passes all to itself stands.
pub fn rank_in_a_loop() -> Result<Option<u16>, Refusal>
    ensures { result ≡ Ok None }
{
    let mut bands = [UNUSED; 1];
    let mut ranks = [0u16; 1];
    let mut table = Table::open(&mut bands, &mut ranks);
    table.size(1, 0)?;
    table.set(0, 0, Share::full(), Share::full())?;
    table.check()?;
    table.rank(0)
}
