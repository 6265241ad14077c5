// GICD_TYPER, which tells the shape.
ghost use Rattle.std.specs.Prelude.{◌≡◌, true};
ghost use Rattle.meaning.specs.Layout.{shape_fits};
ghost use Rattle.meaning.specs.Step.{typer};

use types::Shape;

// ITLinesNumber, ESPI, SecurityExtn, MBIS, IDbits 12, No1N, ESPI_range.
#[tactic(auto, unfolding(meaning::specs::Step::typer, meaning::specs::Layout::shape_fits, lists::specs::Word::digit))]
pub fn typer_of(shape: Shape) -> u32
    requires { shape_fits shape ≡ true }
    ensures { result ≡ typer shape }
{
    let espi = 0x100 * u32::from(0 < shape.espi);
    let mbis = 0x1_0000 * u32::from(shape.mbis);
    let range = 0x800_0000 * shape.espi.saturating_sub(1); // ESPI_range counts from 0
    shape.lines + espi + 0x400 + mbis + 12 * 0x8_0000 + 0x200_0000 + range
}
