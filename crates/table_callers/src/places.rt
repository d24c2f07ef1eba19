// A table whose one band place is held, and then free again.
ghost use Rattle.std.specs.Prelude.{◌≡◌, Ok, Err};
ghost use Rattle.refusals.specs.declared.Refusal.TheVariants.{NoFreePlace};

use amounts::amount::Amount;
use amounts::shares::Share;
use refusals::Refusal;
use tables::band::Band;
use tables::table::Table;

/// What a set of a second pair answers while the first is held, and once that is cleared.
pub fn second_pair() -> Result<(Result<(), Refusal>, Result<(), Refusal>), Refusal>
    ensures { result ≡ Ok (Err NoFreePlace, Ok tt) }
{
    let mut bands = [Band {
        source: 0,
        target: 0,
        low: Share::nothing(),
        high: Share::nothing(),
    }; 1];
    let mut ranks = [0u16; 2];
    let mut table = Table::open(&mut bands, &mut ranks);
    table.size(2, 0)?;
    table.set(0, 0, Share::full(), Share::full())?;
    let at_full = table.set(0, 1, Share::full(), Share::full());
    table.set(0, 0, Share::nothing(), Share::nothing())?;
    let cleared = table.set(0, 1, Share::full(), Share::full());
    Ok((at_full, cleared))
}
