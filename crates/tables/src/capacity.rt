// How many quads and splines the lent columns take.
ghost use Rattle.std.specs.Prelude.{◌≡◌};
ghost use Rattle.tables.specs.Lent.{quads_of, splines_of};
ghost use Rattle.tables.specs.Tables.{whole_rows_of, quad_capacity_of, spline_capacity_of};

use crate::lent::{QuadColumns, SplineColumns, WIDTH};
use command::PointCommand;

impl QuadColumns<'_> {
    // How many rows of 15 numbers are whole.
    pub(crate) fn whole_rows(&self) -> usize
        ensures { result ≡ whole_rows_of self.now.quad_rows.now }
    {
        self.quad_rows.len() / WIDTH
    }

    #[tactic(auto, unfolding(crate::specs::Tables::quad_capacity_of))]
    pub fn capacity(&self) -> usize
        ensures { result ≡ quad_capacity_of (quads_of self.now) }
    {
        self.whole_rows().min(self.partial_splines.len())
    }
}

impl SplineColumns<'_> {
    #[tactic(auto, unfolding(crate::specs::Tables::spline_capacity_of))]
    pub fn capacity(&self) -> u32
        ensures { result ≡ spline_capacity_of (splines_of self.now) }
    {
        let ranges = self.first_quad.len().min(self.quad_count.len());
        let ends = self
            .p2x
            .len()
            .min(self.p2y.len().min(self.contour.len().min(ranges)));
        let rows = self
            .curvature
            .len()
            .min(self.p0x.len().min(self.p0y.len().min(ends)));
        PointCommand::INDEX_LIMIT.min(rows) as u32
    }
}
