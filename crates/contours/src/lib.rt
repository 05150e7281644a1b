// Finished point lists: how many points lent columns hold, and how a list falls into contours. One definition for floats and for whole plotter units.
#![tactic(auto)]

ghost use Rattle.std.specs.Prelude.{◌≡◌};
ghost use Rattle.contours.specs.Finished.{shortest_of};

// How many points columns of these lengths hold: as many as the shortest has entries. Three lengths, not a struct of columns: a public
// function, which columns of floats and of whole numbers share.
#[tactic(auto, unfolding(crate::specs::Finished::shortest_of))]
pub fn shortest(x: usize, y: usize, end: usize) -> usize
    ensures { result ≡ shortest_of x y end }
{
    x.min(y).min(end)
}
