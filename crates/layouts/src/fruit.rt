ghost use Rattle.std.specs.Prelude.{◌≡◌, ◌==◌};
ghost use Rattle.diagrams.specs.Layouts.{bit};

/// Whether a fruit has a mark: bit 0, the lowest, is mark 0. No fruit has a mark past 31.
pub fn has_mark(fruit: u32, mark: u8) -> bool
    ensures { result ≡ (bit mark fruit == 1) }
{
    mark < 32 && (fruit >> mark) % 2 == 1
}
