// Refusal 1: a table length or a shape number off its limit.
#![tactic(auto)]

ghost use Rattle.std.specs.Prelude.{◌≡◌, true, length};
ghost use Rattle.meaning.specs.Layout.{Tables, lent, shape_fits, lengths_fit, well_formed};
ghost use Rattle.table_limits.specs.Sizes.{Sizes};

use types::Shape;

#[tactic(auto, unfolding(meaning::specs::Layout::shape_fits))]
fn shape_fits(shape: Shape) -> bool
    ensures { result ≡ shape_fits shape }
{
    shape.lines <= 31 && shape.espi <= 32 && shape.eppi <= 2
}

#[tactic(auto, unfolding(meaning::specs::Layout::lengths_fit))]
fn lengths_fit(dist: usize, redist: usize, dist_presence: usize, redist_presence: usize) -> bool
    ensures { (t : Tables) → length t.dist ≡ dist → length t.redist ≡ redist → length t.dist_presence ≡ dist_presence
        → length t.redist_presence ≡ redist_presence → result ≡ lengths_fit t }
{
    dist == 2012 && redist == 96 && dist_presence == 63 && redist_presence == 3
}

// Whether refusal 1 does not apply to tables of these lengths. It asks for no table. Its promise is kept as it was; `fits` stands on it.
#[tactic(auto, unfolding(meaning::specs::Layout::well_formed))]
pub fn well_formed(
    shape: Shape,
    dist: usize,
    redist: usize,
    dist_presence: usize,
    redist_presence: usize,
) -> bool
    ensures { (t : Tables) → length t.dist ≡ dist → length t.redist ≡ redist → length t.dist_presence ≡ dist_presence
        → length t.redist_presence ≡ redist_presence → result ≡ well_formed shape t }
{
    shape_fits(shape) && lengths_fit(dist, redist, dist_presence, redist_presence)
}

// The same of tables that are lent, with what is known of them where it is true. One by one: the struct that holds them is the
// controller's, above.
pub fn fits(
    shape: Shape,
    dist: &[u8],
    redist: &[u8],
    dist_presence: &[u32],
    redist_presence: &[u32],
) -> bool
    ensures judged { result ≡ well_formed shape (lent dist.now redist.now dist_presence.now redist_presence.now) }
    ensures sizes { result ≡ true → Sizes shape (lent dist.now redist.now dist_presence.now redist_presence.now) }
{
    well_formed(
        shape,
        dist.len(),
        redist.len(),
        dist_presence.len(),
        redist_presence.len(),
    )
}
