// A record with the hull of its data, which is worked out once: a list is gone through once for all that is asked of it.
ghost use Rattle.std.specs.Prelude.{◌≡◌};
ghost use Rattle.command.specs.Footprints.{data_hull, footprint_of};

use crate::touch;
use crate::touch::{Footprint, Hull};
use meaning::Record;

#[derive(Clone, Copy)]
pub(crate) struct Hulled<'a> {
    pub(crate) r: &'a Record,
    pub(crate) hull: Hull,
    ghost of_its_data: { hull ≡ data_hull r.now },
}

impl<'a> Hulled<'a> {
    // A record, with the hull of its data.
    pub(crate) fn of(r: &'a Record) -> Hulled<'a>
        ensures { result.r.now ≡ r.now }
    {
        Hulled {
            r,
            hull: touch::data_hull(r),
        }
    }

    // The footprint of its command.
    #[tactic(auto, unfolding(crate::specs::Footprints::footprint_of))]
    pub(crate) fn footprint(&self) -> Footprint
        ensures { result ≡ footprint_of self.now.r.now }
    {
        let r = self.r;
        Footprint {
            hull: self.hull,
            status: r.iopb,
            sector: r.sector,
            sectors: touch::moved(r),
            steps: crate::steps_of(*r),
            unit: r.unit,
            reads: crate::reads(*r),
            writes: crate::writes(*r),
        }
    }
}
