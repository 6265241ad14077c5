// Reset: every record byte becomes 0.
ghost use Rattle.std.specs.Prelude.{◌≡◌};
ghost use Rattle.lists.specs.Map.{map_from};
ghost use Rattle.engine.specs.Bank.{zeroed};

pub fn clear(records: &mut [u8])
    ensures { records.new ≡ map_from 0 zeroed records.old }
{
    records.fill(0);
}
